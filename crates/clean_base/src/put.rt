// Writes a text whole.
ghost use Rattle.std.specs.Prelude.{◌≤◌, ◌<◌, length, IfErr, OnOk};
ghost use Rattle.clean_base.specs.Device.{Rose, AppendsFirst};

use crate::Sink;
use thiserror::Error;

/// A sink failed after so many bytes.
#[derive(Clone, Copy, Debug, PartialEq, Eq, Error)]
#[error("write fault after {written} bytes")]
pub struct WriteFault {
    pub written: u64,
}

/// Writes all bytes.
pub fn put_all<K: Sink>(sink: &mut K, bytes: &[u8]) -> Result<(), WriteFault>
    ensures all { OnOk result (AppendsFirst (K.taken sink.old) (K.taken sink.new) (length bytes.now) bytes.now) }
    ensures some { IfErr result (λ e. AppendsFirst (K.taken sink.old) (K.taken sink.new) e.written bytes.now) }
    ensures fewer { IfErr result (λ e. e.written < length bytes.now) }
    ensures cause { IfErr result (λ e. Rose (K.faults sink.old) (K.faults sink.new)) }
    ensures later { K.faults sink.old ≤ K.faults sink.new }
{
    let mut written = 0usize;
    while written < bytes.len() {
        match sink.write(&bytes[written..]) {
            Ok(n) if n > 0 => written += n,
            _ => {
                return Err(WriteFault {
                    written: written as u64,
                });
            }
        }
    }
    Ok(())
}
