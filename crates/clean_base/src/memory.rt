// Files and sinks in memory, whose contents contracts see.
ghost use Rattle.std.specs.Prelude.{◌≡◌, ◌≤◌, ◌<◌, ◌+◌, ◌-◌, ◌^◌, ◌↔◌, List, ℕ, [], length, min, IfOk, IfSome, IfNone, IsOk, IsErr, OnErr, OnOk, Some, None, vec_len, vec_capacity};
ghost use Rattle.clean_base.specs.Memory.{held_by, held_or_empty};
ghost use Rattle.clean_base.specs.Device.{Rose, Reads, AppendsFirst, TookNone, count_of};

use crate::{Failed, Name, Seq, Shelf, Sink};
use std::alloc::{AllocError, Global};

/// A file by its name.
#[derive(Debug, Drop)]
pub struct MemFile {
    pub name: Name,
    pub bytes: Seq<u8>,
}

// The bytes of the first file of that name.
fn find<'a>(files: &'a [MemFile], name: &[u8]) -> Option<&'a [u8]>
    ensures some { IfSome result (λ bytes. held_by files.now name.now ≡ Some bytes.now) }
    ensures none { IfNone result (held_by files.now name.now ≡ None) }
{
    for file in files {
        if file.name.bytes() == name {
            return Some(file.bytes.as_slice());
        }
    }
    None
}

// Copies the bytes from there on into the front of the buffer, as many as fit and at most so many.
fn copy(bytes: &[u8], from: u64, into: &mut [u8], most: usize) -> usize
    requires room { 0 < length into.old }
    requires some { 0 < most }
    ensures within { result ≤ length into.new }
    ensures count { result ≡ min (length bytes.now - from) (min (length into.old) most) }
    ensures bytes { Reads bytes.now from result into.new }
{
    let len = bytes.len() as u64;
    if len <= from {
        return 0;
    }
    let rest = &bytes[from as usize..];
    let n = rest.len().min(into.len().min(most));
    into[..n].copy_from_slice(&rest[..n]);
    n
}

/// Files in memory. The calls whose numbers, counted from 1, stand in `fail` do fail, and so does a call for a
/// name that isn't there. One counter counts the faults of every name. A call that doesn't fail moves as many bytes as fit,
/// or one where the shelf is slow.
#[derive(Drop)]
pub struct MemShelf {
    files: Vec<MemFile>,
    fail: Vec<u64>,
    calls: u64,
    faults: u64,
    most: usize,
    ghost moves: { 0 < most },
}

impl MemShelf {
    ghost use Rattle.clean_base.specs.Shelves.{files_of, fail_of, calls_of, faults_of, most_of};

    pub fn new(files: Vec<MemFile>, fail: Vec<u64>) -> MemShelf
        ensures files { files_of result ≡ files.items }
        ensures fail { fail_of result ≡ fail.items }
        ensures calls { calls_of result ≡ 0 }
        ensures faults { faults_of result ≡ 0 }
        ensures most { most_of result ≡ 2 ^ 64 - 1 }
    {
        MemShelf {
            files,
            fail,
            calls: 0,
            faults: 0,
            most: usize::MAX,
        }
    }

    /// One that moves a byte a call.
    pub fn slow(files: Vec<MemFile>, fail: Vec<u64>) -> MemShelf
        ensures files { files_of result ≡ files.items }
        ensures fail { fail_of result ≡ fail.items }
        ensures calls { calls_of result ≡ 0 }
        ensures faults { faults_of result ≡ 0 }
        ensures most { most_of result ≡ 1 }
    {
        MemShelf {
            files,
            fail,
            calls: 0,
            faults: 0,
            most: 1,
        }
    }
}

impl Shelf for MemShelf {
    ghost use Rattle.clean_base.specs.Shelves.{Fails, files_of, fail_of, calls_of, faults_of, most_of};

    ghost holds = { λ s name. held_by s.files.items name };

    ghost faults = { λ s _. s.faults };

    ghost calls = { λ s. s.calls };

    fn read_at(&mut self, name: &str, from: u64, into: &mut [u8]) -> Result<usize, Failed>
        requires { 0 < length into.old }
        ensures fits { IfOk result (λ n. n ≤ length into.new) }
        ensures bytes { IfOk result (λ n. IfSome (held_by self.old.files.items name.now) (λ bytes. Reads bytes from n into.new)) }
        ensures same { (other : List ℕ) → held_by self.new.files.items other ≡ held_by self.old.files.items other }
        ensures later { (other : List ℕ) → self.old.faults ≤ self.new.faults }
        ensures cause { OnErr result (Rose self.old.faults self.new.faults) }
        ensures one_call { self.new.calls ≤ self.old.calls + 1 }
        ensures fails { IsErr result ↔ Fails self.new name.now }
        ensures moves { IfOk result (λ n. IfSome (held_by self.old.files.items name.now) (λ bytes. n ≡ min (length bytes - from) (min (length into.old) (most_of self.old)))) }
        ensures counts { (calls_of self.new ≡ min (calls_of self.old + 1) (2 ^ 64 - 1)) × (files_of self.new ≡ files_of self.old) × (fail_of self.new ≡ fail_of self.old) × (most_of self.new ≡ most_of self.old) }
        ensures by_one { OnErr result (faults_of self.new ≡ min (faults_of self.old + 1) (2 ^ 64 - 1)) }
        ensures unfailed { OnOk result (faults_of self.new ≡ faults_of self.old) }
    {
        self.calls = self.calls.saturating_add(1);
        if self.fail.contains(&self.calls) {
            self.faults = self.faults.saturating_add(1);
            return Err(Failed);
        }
        let Some(bytes) = find(self.files.as_slice(), name.as_bytes()) else {
            self.faults = self.faults.saturating_add(1);
            return Err(Failed);
        };
        Ok(copy(bytes, from, into, self.most))
    }
}

/// Files in memory that never fail. A name that isn't there is an empty file.
#[derive(Drop)]
pub struct SureShelf {
    files: Vec<MemFile>,
}

impl SureShelf {
    ghost use Rattle.clean_base.specs.Shelves.{sure_files_of};

    pub fn new(files: Vec<MemFile>) -> SureShelf
        ensures { sure_files_of result ≡ files.items }
    {
        SureShelf { files }
    }
}

impl Shelf for SureShelf {
    ghost use Rattle.clean_base.specs.Shelves.{sure_files_of};

    ghost holds = { λ s name. Some (held_or_empty s.files.items name) };

    ghost faults = { λ s _. 0 };

    ghost calls = { λ s. 0 };

    fn read_at(&mut self, name: &str, from: u64, into: &mut [u8]) -> Result<usize, Failed>
        requires { 0 < length into.old }
        ensures fits { IfOk result (λ n. n ≤ length into.new) }
        ensures bytes { IfOk result (λ n. Reads (held_or_empty self.old.files.items name.now) from n into.new) }
        ensures same { (other : List ℕ) → Some (held_or_empty self.new.files.items other) ≡ Some (held_or_empty self.old.files.items other) }
        ensures later { (other : List ℕ) → 0 ≤ 0 }
        ensures cause { OnErr result (Rose 0 0) }
        ensures one_call { 0 ≤ 1 }
        ensures sure { IsOk result }
        ensures moves { IfOk result (λ n. n ≡ min (length (held_or_empty self.old.files.items name.now) - from) (length into.old)) }
        ensures kept { sure_files_of self.new ≡ sure_files_of self.old }
    {
        match find(self.files.as_slice(), name.as_bytes()) {
            Some(bytes) => Ok(copy(bytes, from, into, usize::MAX)),
            None => Ok(0),
        }
    }
}

/// Keeps what is written, and takes none after so many bytes. It takes as many bytes a call as fit, or one where it is slow.
#[derive(Drop)]
pub struct MemSink {
    bytes: Vec<u8>,
    room: usize,
    faults: u64,
    most: usize,
    ghost roomy: { vec_len bytes + room ≤ vec_capacity bytes },
}

// A sink with room for so many bytes, which takes at most so many a call.
fn sink_of(alloc: Global, fail_after: u64, most: usize) -> Result<MemSink, AllocError>
    ensures { IfOk result (λ s. (s.bytes.items ≡ []) × (s.room ≡ fail_after) × (s.faults ≡ 0) × (s.most ≡ most)) }
{
    let room = fail_after as usize;
    Ok(MemSink {
        bytes: Vec::with_capacity(alloc, room)?,
        room,
        faults: 0,
        most,
    })
}

impl MemSink {
    ghost use Rattle.clean_base.specs.Shelves.{bytes_of, room_of, sink_faults_of, sink_most_of};

    /// A sink with room for `fail_after` bytes, which takes no memory later.
    pub fn new(alloc: Global, fail_after: u64) -> Result<MemSink, AllocError>
        ensures empty { IfOk result (λ s. bytes_of s ≡ []) }
        ensures room { IfOk result (λ s. room_of s ≡ fail_after) }
        ensures faults { IfOk result (λ s. sink_faults_of s ≡ 0) }
        ensures most { IfOk result (λ s. sink_most_of s ≡ 2 ^ 64 - 1) }
    {
        sink_of(alloc, fail_after, usize::MAX)
    }

    /// One that takes a byte a call.
    pub fn slow(alloc: Global, fail_after: u64) -> Result<MemSink, AllocError>
        ensures empty { IfOk result (λ s. bytes_of s ≡ []) }
        ensures room { IfOk result (λ s. room_of s ≡ fail_after) }
        ensures faults { IfOk result (λ s. sink_faults_of s ≡ 0) }
        ensures most { IfOk result (λ s. sink_most_of s ≡ 1) }
    {
        sink_of(alloc, fail_after, 1)
    }

    /// What it took.
    pub fn bytes(&self) -> &[u8]
        ensures { result.now ≡ bytes_of self.now }
    {
        self.bytes.as_slice()
    }
}

impl Sink for MemSink {
    ghost use Rattle.clean_base.specs.Shelves.{bytes_of, room_of, sink_faults_of, sink_most_of};

    ghost taken = { λ s. Some s.bytes.items };

    ghost faults = { λ s. s.faults };

    fn write(&mut self, piece: &[u8]) -> Result<usize, Failed>
        requires { 0 < length piece.now }
        ensures fits { IfOk result (λ n. n ≤ length piece.now) }
        ensures taken { AppendsFirst (Some self.old.bytes.items) (Some self.new.bytes.items) (count_of result) piece.now }
        ensures later { self.old.faults ≤ self.new.faults }
        ensures cause { TookNone result → Rose self.old.faults self.new.faults }
        ensures moves { count_of result ≡ min (length piece.now) (min (room_of self.old) (sink_most_of self.old)) }
        ensures room { room_of self.new ≡ room_of self.old - count_of result }
        ensures by_one { OnErr result (sink_faults_of self.new ≡ min (sink_faults_of self.old + 1) (2 ^ 64 - 1)) }
        ensures unfailed { IfOk result (λ n. (0 < n) × (sink_faults_of self.new ≡ sink_faults_of self.old)) }
    {
        let n = piece.len().min(self.room.min(self.most));
        if n == 0 {
            self.faults = self.faults.saturating_add(1);
            return Err(Failed);
        }
        for b in &piece[..n] {
            self.room -= 1;
            self.bytes.push_reserved(*b);
        }
        Ok(n)
    }
}

/// Takes every piece whole, and keeps only how many bytes it took.
#[derive(Drop)]
pub struct NullSink {
    taken: u64,
}

impl NullSink {
    ghost use Rattle.clean_base.specs.Shelves.{taken_of};

    pub fn new() -> NullSink
        ensures { taken_of result ≡ 0 }
    {
        NullSink { taken: 0 }
    }

    /// How many bytes it took; the number stays at its greatest value.
    pub fn taken(&self) -> u64
        ensures { result ≡ taken_of self.now }
    {
        self.taken
    }
}

impl Sink for NullSink {
    ghost use Rattle.clean_base.specs.Shelves.{taken_of};

    ghost taken = { λ s. None };

    ghost faults = { λ s. 0 };

    fn write(&mut self, piece: &[u8]) -> Result<usize, Failed>
        requires { 0 < length piece.now }
        ensures fits { IfOk result (λ n. n ≤ length piece.now) }
        ensures taken { AppendsFirst None None (count_of result) piece.now }
        ensures later { 0 ≤ 0 }
        ensures cause { TookNone result → Rose 0 0 }
        ensures whole { IfOk result (λ n. n ≡ length piece.now) }
        ensures counted { taken_of self.new ≡ min (taken_of self.old + count_of result) (2 ^ 64 - 1) }
    {
        self.taken = self.taken.saturating_add(piece.len() as u64);
        Ok(piece.len())
    }
}
