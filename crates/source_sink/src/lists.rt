// Lists of sources and sinks: read line by line, and asked by signature. `entry`, `line` and what all lists share stand below.
ghost use Rattle.std.specs.Prelude.{◌≡◌, ◌↔◌, List, map, IfOk, IfErr, OnOk, IsTrue};
ghost use Rattle.clean_base.specs.declared.fault.InputFault.{InputFault};
ghost use Rattle.name_index.specs.Index.{IsIndex};
ghost use Rattle.list_lines.specs.Lines.{trimmed, list_lines};
ghost use Rattle.source_sink.specs.declared.line.Line.{Line};
ghost use Rattle.source_sink.specs.Lists.{IsList, IsFirstFault, Names, Refused, Says};
ghost use Rattle.source_sink.specs.ReadingLists.{name_of, Adds, RefusesLine, stop_of};

use crate::cursor::Miss;
use crate::entry::read_line;
use crate::line::{Kind, Line, with_line};
use bstr::ByteSlice;
use clean_base::{InputFault, Name, Stop};
use jimple_tree::Sig;
use list_lines::{is_passed_over, trimmed};
use name_index::NameIndex;
use std::alloc::{AllocError, Global};
use std::marker::Model;

/// The lines of a list, in their order.
#[derive(Debug, Drop)]
pub struct Lists {
    lines: Vec<Line>,
    index: NameIndex,
}

impl Model for Lists {
    ghost use Rattle.std.specs.Prelude.{List, map};
    ghost use Rattle.name_index.specs.Index.{IsIndex};
    ghost use Rattle.source_sink.specs.declared.line.Line.{Line};
    ghost use Rattle.source_sink.specs.ReadingLists.{name_of};

    ghost Value = { List Line };

    ghost view = { λ s. s.lines.items };

    ghost invariant = { λ s. IsIndex (map name_of s.lines.items) s.index };
}

// The index of the lines by their methods' names.
fn index_of(alloc: Global, lines: &[Line]) -> Result<NameIndex, AllocError>
    ensures { IfOk result (IsIndex (map name_of lines.now)) }
{
    let mut index = NameIndex::new(alloc);
    for (number, line) in lines.iter().enumerate() {
        index.add(alloc, &line.sig.name, number)?;
    }
    Ok(index)
}

// The lines, with their index.
fn indexed(alloc: Global, lines: Vec<Line>) -> Result<Lists, AllocError>
    ensures { IfOk result (λ l. l ≡ lines.items) }
{
    let index = index_of(alloc, lines.as_slice())?;
    Ok(Lists { lines, index })
}

// Takes a line, which is passed over or gives one of the list.
fn take_line(alloc: Global, line: &[u8], lines: &mut Vec<Line>) -> Result<(), Miss>
    ensures adds { OnOk result (Adds (trimmed line.now) lines.old.items lines.new.items) }
    ensures refused { IfErr result (RefusesLine (trimmed line.now)) }
{
    let text = trimmed(line);
    if is_passed_over(text) {
        return Ok(());
    }
    lines.push(read_line(alloc, text)?)?;
    Ok(())
}

fn stop_of(miss: Miss, file: u32, line: u64) -> Stop
    ensures { result ≡ stop_of miss file line }
{
    match miss {
        Miss::Other => Stop::Fault(InputFault::BadLine { file, line }),
        Miss::Memory => Stop::OutOfMemory,
    }
}

fn read_lines(alloc: Global, bytes: &[u8], file: u32) -> Result<Vec<Line>, Stop>
    ensures ok { IfOk result (λ lines. IsList bytes.now lines.items) }
    ensures err { IfErr result (Refused file bytes.now) }
{
    let mut lines = Vec::new(alloc);
    let mut number = 0u64;
    for line in bytes.lines() {
        number += 1;
        match take_line(alloc, line, &mut lines) {
            Ok(()) => {}
            Err(miss) => return Err(stop_of(miss, file, number)),
        }
    }
    Ok(lines)
}

/// The lines of a list, in its order. `file` is the file's place in the order of reading, as faults name it.
///
/// An error is want of memory, or `BadLine` at the first line that isn't understood (docs/FORMATS.md, "Signatures and lists").
pub fn read_lists(alloc: Global, bytes: &[u8], file: u32) -> Result<Lists, Stop>
    ensures ok { IfOk result (IsList bytes.now) }
    ensures only { IfOk result (λ lines. (others : List Line) → IsList bytes.now others → others ≡ lines) }
    ensures faultless { OnOk result ((fault : InputFault) → IsFirstFault file (list_lines bytes.now) fault → ⊥) }
    ensures err { IfErr result (Refused file bytes.now) }
{
    let lines = read_lines(alloc, bytes, file)?;
    match indexed(alloc, lines) {
        Ok(lists) => Ok(lists),
        Err(AllocError) => Err(Stop::OutOfMemory),
    }
}

impl Lists {
    /// Whether some line is of a method of this name.
    pub fn names(&self, name: &Name) -> bool
        ensures { IsTrue result ↔ Names self.now name.now }
    {
        !self.index.places(name).is_empty()
    }

    /// What the lines say of the signature, with that class in place of its own.
    pub fn kind(&self, class: &Name, sig: &Sig) -> Kind
        ensures source { IsTrue result.source ↔ Says self.now (record sig.now { class = class.now }) (λ (l : Line). l.source) }
        ensures sink { IsTrue result.sink ↔ Says self.now (record sig.now { class = class.now }) (λ (l : Line). l.sink) }
    {
        let lines = self.lines.as_slice();
        let mut kind = Kind {
            source: false,
            sink: false,
        };
        for number in self.index.places(&sig.name) {
            kind = with_line(kind, &lines[*number], class, sig);
        }
        kind
    }
}
