// Reads the files of a command, before any text is looked at.
ghost use Rattle.std.specs.Prelude.{◌≡◌, ◌≤◌, ◌<◌, ◌+◌, ◌^◌, All, List, ℕ, length, map, IfOk, IfErr};
ghost use Rattle.clean_top.specs.Reading.{room_bytes, room_after, of_read, fitting, Reads, text_at, texts_in, IsOf, AreOf, IsHaltAmong};
ghost use Rattle.clean_top.specs.Words.{in_order};

use crate::task::Named;
use clean_base::limits::{CLASS_ROOM, LIST_ROOM};
use clean_base::{InputFault, ReadStop, Seq, Shelf, Word, read_all};
use clean_stage::Halt;
use std::alloc::{AllocError, Global};

/// The text of a file, which stands at this place in the order of reading.
#[derive(Debug, Drop)]
pub struct Text {
    pub file: u32,
    pub bytes: Seq<u8>,
}

/// The texts of a command's files.
#[derive(Debug, Drop)]
pub struct Texts {
    pub classes: Seq<Text>,
    pub lists: Seq<Text>,
}

/// How many bytes the next file may have: what earlier ones left, or always so many.
#[derive(Clone, Copy, Debug, Drop)]
pub enum Room {
    Shared(u64),
    Each(u64),
}

impl Room {
    fn bytes(self) -> u64
        ensures { result ≡ room_bytes self }
    {
        match self {
            Room::Shared(left) => left,
            Room::Each(room) => room,
        }
    }

    // The room behind a file of so many bytes.
    fn after(self, used: u64) -> Room
        ensures { result ≡ room_after self used }
    {
        match self {
            Room::Shared(left) => Room::Shared(left.saturating_sub(used)),
            Room::Each(room) => Room::Each(room),
        }
    }
}

/// Why files give no texts, or their texts no output.
#[derive(Debug, Drop)]
pub enum ReadHalt {
    /// The shelf failed at that file of the words.
    ReadFault { file: u32 },
    Halt(Halt),
}

impl From<AllocError> for ReadHalt {
    ghost use Rattle.std.specs.Prelude.{◌≡◌};
    ghost use Rattle.clean_top.specs.Reading.{no_memory};

    ghost from_gives = { λ _ t. t ≡ no_memory };

    fn from(_stop: AllocError) -> ReadHalt {
        ReadHalt::Halt(Halt::OutOfMemory)
    }
}

impl From<Halt> for ReadHalt {
    ghost use Rattle.std.specs.Prelude.{◌≡◌};
    ghost use Rattle.clean_top.specs.declared.read.ReadHalt.TheVariants as halts;

    ghost from_gives = { λ h t. t ≡ halts.Halt h };

    fn from(halt: Halt) -> ReadHalt {
        ReadHalt::Halt(halt)
    }
}

fn of_read(stop: ReadStop, file: u32) -> ReadHalt
    ensures { result ≡ of_read stop file }
{
    match stop {
        ReadStop::ReadFault => ReadHalt::ReadFault { file },
        ReadStop::TooLong { at } => ReadHalt::Halt(Halt::of(InputFault::TooLong { file, at })),
        ReadStop::OutOfMemory => ReadHalt::Halt(Halt::OutOfMemory),
    }
}

/// Reads files in order; `first` is the place of the first one.
pub fn read_texts<S: Shelf>(
    alloc: Global,
    shelf: &mut S,
    names: &[Word],
    first: u32,
    room: Room,
) -> Result<Seq<Text>, ReadHalt>
    requires numbers { first + length names.now < 2 ^ 32 }
    requires room { room_bytes room < 2 ^ 32 }
    ensures count { IfOk result (λ texts. length texts ≡ length names.now) }
    ensures read { Reads (S.holds shelf.old) (S.faults shelf.old) (S.faults shelf.new) names.now first (λ files. fitting room first (map files names.now)) result }
    ensures of { IfOk result (All (IsOf (first + length names.now))) }
    ensures among { IfErr result (IsHaltAmong (first + length names.now)) }
    ensures same { (other : List ℕ) → S.holds shelf.new other ≡ S.holds shelf.old other }
    ensures later { (other : List ℕ) → S.faults shelf.old other ≤ S.faults shelf.new other }
{
    let mut texts = Vec::new(alloc);
    let mut left = room;
    let mut file = first;
    for name in names {
        let bytes = match read_all(alloc, shelf, name.as_str(), left.bytes()) {
            Ok(bytes) => bytes,
            Err(stop) => return Err(of_read(stop, file)),
        };
        left = left.after(bytes.len() as u64);
        let text = Text {
            file,
            bytes: Seq::from_vec(bytes),
        };
        let Ok(()) = texts.push(text) else {
            return Err(ReadHalt::Halt(Halt::OutOfMemory));
        };
        file += 1;
    }
    Ok(Seq::from_vec(texts))
}

/// The text at a place.
pub fn text_at(texts: &[Text], at: usize) -> &Text
    requires { at < length texts.now }
    ensures { result.now ≡ text_at texts.now at }
{
    &texts[at]
}

/// Reads all files of a command.
pub fn read_named<S: Shelf>(alloc: Global, shelf: &mut S, names: &Named) -> Result<Texts, ReadHalt>
    requires few { (length names.now.classes ≤ 4096) × (length names.now.lists ≤ 4) }
    ensures count { IfOk result (λ texts. length texts.lists ≡ length names.now.lists) }
    ensures read { Reads (S.holds shelf.old) (S.faults shelf.old) (S.faults shelf.new) (in_order names.now) 0 (texts_in names.now) result }
    ensures of { IfOk result (AreOf (length (in_order names.now))) }
    ensures among { IfErr result (IsHaltAmong (length (in_order names.now))) }
    ensures same { (other : List ℕ) → S.holds shelf.new other ≡ S.holds shelf.old other }
    ensures later { (other : List ℕ) → S.faults shelf.old other ≤ S.faults shelf.new other }
{
    let first = names.classes.as_slice();
    let others = names.lists.as_slice();
    let classes = read_texts(alloc, shelf, first, 0, Room::Shared(CLASS_ROOM))?;
    let lists = read_texts(
        alloc,
        shelf,
        others,
        first.len() as u32,
        Room::Each(LIST_ROOM),
    )?;
    Ok(Texts { classes, lists })
}
