// One list of entries, each once, in the order of adding. Numbered lists stand above; how the entries are kept stands
// below.
ghost use Rattle.std.specs.Prelude.{◌≡◌, ◌⊎◌, ◌≤◌, ◌<◌, ◌+◌, ◌++◌, ◌∷◌, [], IsTrue, false, length, Contains, OnOk};
ghost use Rattle.ifds_model.specs.State.{At, IsDistinct};

use crate::kept::Kept;
use clean_base::Plain;
use std::alloc::{AllocError, Global};
use std::marker::Model;

/// A list of entries without repeats.
#[derive(Drop)]
pub struct Entries<T: Plain> {
    kept: Kept<T>,
}

impl<T: Plain> Model for Entries<T> {
    ghost use Rattle.entry_tables.specs.Kept.{items_of, spare_of};
    ghost use Rattle.ifds_model.specs.State.{IsDistinct};
    ghost use Rattle.entry_tables.specs.Rows.{Row};

    ghost Value = { Row T };

    ghost view = { λ s. record { items = items_of s.kept; spare = spare_of s.kept } };

    ghost invariant = { λ s. IsDistinct (items_of s.kept) };
}

impl<T: Plain> Entries<T> {
    pub fn new(alloc: Global) -> Self
        ensures { result.items ≡ [] }
    {
        Entries {
            kept: Kept::new(alloc),
        }
    }

    /// The number of entries.
    pub fn len(&self) -> usize
        ensures len { result ≡ length self.now.items }
        ensures distinct { IsDistinct self.now.items }
    {
        self.kept.len()
    }

    /// The entry at a place.
    pub fn get(&self, at: usize) -> T
        requires { at < length self.now.items }
        ensures { At self.now.items at result }
    {
        self.kept.get(at)
    }

    /// Makes room for so many further entries.
    pub fn reserve(&mut self, more: usize) -> Result<(), AllocError>
        ensures same { self.new.items ≡ self.old.items }
        ensures kept { self.old.spare ≤ self.new.spare }
        ensures ok { OnOk result (more ≤ self.new.spare) }
    {
        self.kept.reserve(more)
    }

    /// Adds an entry at the end where it is not there yet, and tells whether it is new.
    pub fn add(&mut self, item: T) -> bool
        requires { Contains self.old.items item ⊎ (0 < self.old.spare) }
        ensures is_new { IsTrue result → ¬ Contains self.old.items item }
        ensures added { IsTrue result → self.new.items ≡ self.old.items ++ item ∷ [] }
        ensures was { result ≡ false → Contains self.old.items item }
        ensures same { result ≡ false → self.new.items ≡ self.old.items }
        ensures room { self.old.spare ≤ self.new.spare + 1 }
    {
        self.kept.add(item)
    }
}
