// The real files and the standard streams. They tell nothing of content: what is proved of them is safety, causes
// and the number of bytes.
ghost use Rattle.std.specs.Prelude.{◌≡◌, None, IfSome, ◌≤◌, length};

use crate::{Failed, Shelf, Sink};
use std::fs::File;
use std::io::{Read, Seek, SeekFrom, Stderr, Stdout, Write};
use std::rt::Files;

/// The files of the system. One counter counts the faults of every name.
#[derive(Drop)]
pub struct StdShelf<'a, R: Files> {
    rt: &'a R,
    faults: u64,
}

impl<'a, R: Files> StdShelf<'a, R> {
    /// A shelf that has not failed yet.
    pub fn new(rt: &'a R) -> Self
        ensures { result.faults ≡ 0 }
    {
        StdShelf { rt, faults: 0 }
    }
}

// Reads some bytes of a file, from a place on.
fn read_part<R: Files>(rt: &R, name: &str, from: u64, into: &mut [u8]) -> Option<usize>
    ensures { IfSome result (λ n. n ≤ length into.new) }
{
    let Ok(mut file) = File::open(rt, name) else {
        return None;
    };
    let Ok(_) = file.seek(SeekFrom::Start(from)) else {
        return None;
    };
    match file.read(into) {
        Ok(n) => Some(n),
        Err(_) => None,
    }
}

impl<R: Files> Shelf for StdShelf<'_, R> {
    ghost holds = { λ s name. None };

    ghost faults = { λ s _. s.faults };

    ghost calls = { λ s. 0 };

    fn read_at(&mut self, name: &str, from: u64, into: &mut [u8]) -> Result<usize, Failed> {
        match read_part(self.rt, name, from, into) {
            Some(n) => Ok(n),
            None => {
                self.faults = self.faults.saturating_add(1);
                Err(Failed)
            }
        }
    }
}

/// A standard stream.
#[derive(Drop)]
pub struct StdSink<W: Write + Drop> {
    stream: W,
    faults: u64,
}

impl StdSink<Stdout> {
    /// The standard output.
    pub fn output(stream: Stdout) -> Self
        ensures { result.faults ≡ 0 }
    {
        StdSink { stream, faults: 0 }
    }
}

impl StdSink<Stderr> {
    /// The standard error.
    pub fn error(stream: Stderr) -> Self
        ensures { result.faults ≡ 0 }
    {
        StdSink { stream, faults: 0 }
    }
}

impl<W: Write + Drop> Sink for StdSink<W> {
    ghost taken = { λ s. None };

    ghost faults = { λ s. s.faults };

    fn write(&mut self, piece: &[u8]) -> Result<usize, Failed> {
        match self.stream.write(piece) {
            Ok(n) if n > 0 => Ok(n),
            _ => {
                self.faults = self.faults.saturating_add(1);
                Err(Failed)
            }
        }
    }
}
