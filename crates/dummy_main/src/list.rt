// Lists of components, read line by line. `entry` and what all lists share stand below.
ghost use Rattle.std.specs.Prelude.{◌≡◌, ◌<◌, ◌≤◌, ◌++◌, [], ◌∷◌, ℕ, List, length, map, Contains, IfOk, IfErr, OnOk, MatchBool};
ghost use Rattle.dummy_main.specs.declared.list.Refusal.TheVariants.{Memory};
ghost use Rattle.clean_base.specs.declared.fault.InputFault.{InputFault};
ghost use Rattle.dummy_main.specs.declared.component.Component.{Component};
ghost use Rattle.list_lines.specs.Lines.{trimmed, list_lines};
ghost use Rattle.dummy_main.specs.Listing.{most_components, Gives, name_of, IsList, IsFirstFault, Refused};
ghost use Rattle.dummy_main.specs.ReadingList.{IsIndexed, MayFollow, Adds, RefusesLine, stop_of};

use crate::Component;
use crate::component::MOST_COMPONENTS;
use crate::entry::{Said, read_line};
use bstr::ByteSlice;
use clean_base::{InputFault, Name, Stop};
use list_lines::trimmed;
use name_index::NameIndex;
use std::alloc::{AllocError, AllocFailed, Global};

/// Why a line is refused: it isn't understood or one too many, its class stands in a line before it, or memory ran out.
#[derive(Clone, Copy, Debug)]
pub enum Refusal {
    Bad,
    Double,
    Memory,
}

impl From<AllocError> for Refusal {
    ghost use Rattle.std.specs.Prelude.{◌≡◌};
    ghost use Rattle.dummy_main.specs.declared.list.Refusal.TheVariants.{Memory};

    ghost from_gives = { λ _ e. e ≡ Memory };

    fn from(_e: AllocError) -> Refusal {
        Refusal::Memory
    }
}

impl<T: Drop> From<AllocFailed<T>> for Refusal {
    ghost use Rattle.std.specs.Prelude.{◌≡◌};
    ghost use Rattle.dummy_main.specs.declared.list.Refusal.TheVariants.{Memory};

    ghost from_gives = { λ _ e. e ≡ Memory };

    fn from(_e: AllocFailed<T>) -> Refusal {
        Refusal::Memory
    }
}

/// The components of the lines so far, and where each class stands among them.
#[derive(Debug, Drop)]
pub struct Listed {
    components: Vec<Component>,
    names: NameIndex,
}

impl Listed {
    fn new(alloc: Global) -> Listed
        ensures none { result.components.items ≡ [] }
        ensures indexed { IsIndexed result }
    {
        Listed {
            components: Vec::new(alloc),
            names: NameIndex::new(alloc),
        }
    }

    fn names(&self, class: &Name) -> bool
        requires { IsIndexed self.now }
        ensures { MatchBool result (Contains (map name_of self.now.components.items) class.now) (Contains (map name_of self.now.components.items) class.now → ⊥) }
    {
        !self.names.places(class).is_empty()
    }

    fn push(&mut self, alloc: Global, component: Component) -> Result<(), Refusal>
        requires { IsIndexed self.old }
        ensures indexed { OnOk result (IsIndexed self.new) }
        ensures pushed { OnOk result (self.new.components.items ≡ self.old.components.items ++ component ∷ []) }
        ensures memory { IfErr result (λ e. e ≡ Memory) }
    {
        let place = self.components.len();
        self.names.add(alloc, &component.name, place)?;
        self.components.push(component)?;
        Ok(())
    }

    // Takes the component of a line.
    fn take(&mut self, alloc: Global, component: Component) -> Result<(), Refusal>
        requires indexed { IsIndexed self.old }
        requires few { length self.old.components.items ≤ most_components }
        ensures indexed { OnOk result (IsIndexed self.new) }
        ensures pushed { OnOk result (self.new.components.items ≡ self.old.components.items ++ component ∷ []) }
        ensures may { OnOk result (MayFollow self.old.components.items component) }
        ensures refused { (line : List ℕ) → Gives line component → IfErr result (RefusesLine self.old.components.items line) }
    {
        if self.components.len() == MOST_COMPONENTS {
            return Err(Refusal::Bad);
        }
        if self.names(&component.name) {
            return Err(Refusal::Double);
        }
        self.push(alloc, component)
    }

    // Takes a line.
    fn take_line(&mut self, alloc: Global, line: &[u8]) -> Result<(), Refusal>
        requires indexed { IsIndexed self.old }
        requires few { length self.old.components.items ≤ most_components }
        ensures indexed { OnOk result (IsIndexed self.new) }
        ensures adds { OnOk result (Adds (trimmed line.now) self.old.components.items self.new.components.items) }
        ensures refused { IfErr result (RefusesLine self.old.components.items (trimmed line.now)) }
    {
        match read_line(alloc, trimmed(line))? {
            Said::Nothing => Ok(()),
            Said::Names(component) => self.take(alloc, component),
            Said::Other => Err(Refusal::Bad),
        }
    }
}

fn stop_of(refusal: Refusal, file: u32, line: u64) -> Stop
    ensures { result ≡ stop_of refusal file line }
{
    match refusal {
        Refusal::Bad => Stop::Fault(InputFault::BadLine { file, line }),
        Refusal::Double => Stop::Fault(InputFault::DoubleComponent { file, line }),
        Refusal::Memory => Stop::OutOfMemory,
    }
}

/// The components of a list, in its order. `file` is the file's place in the order of reading, as faults name it.
///
/// An error is want of memory, or the first line that has a fault: `BadLine` where it isn't understood or is a component
/// too many, `DoubleComponent` where a line before it names the same class (docs/FORMATS.md, "Component lists").
pub fn read_components(alloc: Global, bytes: &[u8], file: u32) -> Result<Vec<Component>, Stop>
    ensures ok { IfOk result (λ cs. IsList bytes.now cs.items) }
    ensures only { IfOk result (λ cs. (others : List Component) → IsList bytes.now others → others ≡ cs.items) }
    ensures faultless { OnOk result ((fault : InputFault) → IsFirstFault file (list_lines bytes.now) fault → ⊥) }
    ensures err { IfErr result (Refused file bytes.now) }
{
    let mut listed = Listed::new(alloc);
    let mut number = 0u64;
    for line in bytes.lines() {
        number += 1;
        match listed.take_line(alloc, line) {
            Ok(()) => {}
            Err(refusal) => return Err(stop_of(refusal, file, number)),
        }
    }
    Ok(listed.components)
}
