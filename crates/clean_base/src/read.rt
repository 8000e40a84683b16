// Reads a file whole.
ghost use Rattle.std.specs.Prelude.{◌≡◌, ◌≤◌, List, ℕ, vec_len, IfOk, IfSome, IfErr, OnOk, length, take, ◌++◌, ◌+◌};
ghost use Rattle.clean_base.specs.Device.{ReadCause};

use crate::Shelf;
use std::alloc::{AllocError, Global};
use thiserror::Error;

/// Why a name was not read.
#[derive(Clone, Copy, Debug, PartialEq, Eq, Error)]
pub enum ReadStop {
    #[error("read fault")]
    ReadFault,
    #[error("longer than {at} bytes")]
    TooLong { at: u64 },
    #[error("out of memory")]
    OutOfMemory,
}

const PIECE: usize = 65536;

// A buffer of n bytes.
fn buffer(alloc: Global, n: usize) -> Result<Vec<u8>, AllocError>
    ensures { IfOk result (λ v. vec_len v ≡ n) }
{
    vec![in alloc; 0u8; n]
}

// The first n bytes of the piece go to the end.
fn append(out: &mut Vec<u8>, piece: &[u8], n: usize) -> Result<(), AllocError>
    requires { n ≤ length piece.now }
    ensures items { OnOk result (out.new.items ≡ out.old.items ++ take n piece.now) }
    ensures len { OnOk result (vec_len out.new ≡ vec_len out.old + n) }
{
    out.extend_from_slice(&piece[..n])
}

/// The whole of a name, which has at most `room` bytes.
pub fn read_all<S: Shelf>(
    alloc: Global,
    shelf: &mut S,
    name: &str,
    room: u64,
) -> Result<Vec<u8>, ReadStop>
    ensures within { IfOk result (λ v. vec_len v ≤ room) }
    ensures whole { IfOk result (λ v. IfSome (S.holds shelf.old name.now) (λ bytes. v.items ≡ bytes)) }
    ensures cause { IfErr result (ReadCause (S.holds shelf.old name.now) (S.faults shelf.old name.now) (S.faults shelf.new name.now) room) }
    ensures same { (other : List ℕ) → S.holds shelf.new other ≡ S.holds shelf.old other }
    ensures later { (other : List ℕ) → S.faults shelf.old other ≤ S.faults shelf.new other }
    ensures calls { S.calls shelf.new ≤ S.calls shelf.old + room + 1 }
{
    let mut out = Vec::new(alloc);
    let Ok(mut room_for_piece) = buffer(alloc, PIECE) else {
        return Err(ReadStop::OutOfMemory);
    };
    let piece = room_for_piece.as_mut_slice();
    let mut left = room;
    loop {
        let Ok(n) = shelf.read_at(name, room - left, piece) else {
            return Err(ReadStop::ReadFault);
        };
        if n == 0 {
            return Ok(out);
        }
        let count = n as u64;
        if left < count {
            return Err(ReadStop::TooLong { at: room });
        }
        let Ok(()) = append(&mut out, piece, n) else {
            return Err(ReadStop::OutOfMemory);
        };
        left -= count;
    }
}
