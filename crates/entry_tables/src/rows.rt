// Numbered lists of entries. Those that no number was given for yet are prepared here, empty and with room, so that
// giving out a number takes no memory.
ghost use Rattle.std.specs.Prelude.{◌≡◌, ◌⊎◌, ◌≤◌, ◌<◌, ◌+◌, ◌-◌, ◌++◌, ◌∷◌, [], ℕ, max, IsTrue, false, length, replicate, slice_index, slice_set, Contains, OnOk, OnErr};
ghost use Rattle.ifds_model.specs.State.{At, IsDistinct};
ghost use Rattle.entry_tables.specs.Lists.{list_at, KeepsRoom, UsesRoomAt};
ghost use Rattle.entry_tables.specs.Rows.{IsEven};

use crate::entries::Entries;
use clean_base::Plain;
use std::alloc::{AllocError, Global};
use std::marker::Model;

/// Lists of entries, numbered from 0.
#[derive(Drop)]
pub struct EntryRows<T: Plain> {
    alloc: Global,
    rows: Vec<Entries<T>>,
}

impl<T: Plain> Model for EntryRows<T> {
    ghost use Rattle.entry_tables.specs.Rows.{Rows, lists_of, rooms_of};

    ghost Value = { Rows T };

    ghost view = { λ s. record { lists = lists_of s.rows.items; rooms = rooms_of s.rows.items } };
}

impl<T: Plain> EntryRows<T> {
    pub fn new(alloc: Global) -> Self
        ensures lists { result.lists ≡ [] }
        ensures even { IsEven result }
    {
        EntryRows {
            alloc,
            rows: Vec::new(alloc),
        }
    }

    /// The number of lists.
    pub fn count(&self) -> usize
        ensures count { result ≡ length self.now.lists }
        ensures even { IsEven self.now }
    {
        self.rows.len()
    }

    /// The number of entries of a list.
    pub fn len(&self, at: usize) -> usize
        requires { at < length self.now.lists }
        ensures len { result ≡ length (list_at self.now.lists at) }
        ensures distinct { IsDistinct (list_at self.now.lists at) }
    {
        self.rows[at].len()
    }

    /// An entry of a list.
    pub fn get(&self, at: usize, place: usize) -> T
        requires list { at < length self.now.lists }
        requires place { place < length (list_at self.now.lists at) }
        ensures { At (list_at self.now.lists at) place result }
    {
        self.rows[at].get(place)
    }

    /// Makes room for so many further entries of a list.
    pub fn reserve(&mut self, at: usize, more: usize) -> Result<(), AllocError>
        requires { at < length self.old.lists }
        ensures same { self.new.lists ≡ self.old.lists }
        ensures even { IsEven self.new }
        ensures kept { KeepsRoom self.old.rooms self.new.rooms }
        ensures ok { OnOk result (more ≤ slice_index self.new.rooms at) }
    {
        self.rows[at].reserve(more)
    }

    /// Makes room for so many entries of each list from a number on.
    pub fn raise(&mut self, from: usize, more: usize) -> Result<(), AllocError>
        ensures same { self.new.lists ≡ self.old.lists }
        ensures even { IsEven self.new }
        ensures kept { KeepsRoom self.old.rooms self.new.rooms }
        ensures ok { OnOk result ((k : ℕ) → from ≤ k → k < length self.new.lists → more ≤ slice_index self.new.rooms k) }
    {
        for at in from..self.count() {
            self.reserve(at, more)?;
        }
        Ok(())
    }

    /// Prepares further lists, empty and with room, until there are so many.
    pub fn prepare(&mut self, count: usize, room: usize) -> Result<(), AllocError>
        ensures lists { self.new.lists ≡ self.old.lists ++ replicate (length self.new.lists - length self.old.lists) [] }
        ensures even { IsEven self.new }
        ensures few { length self.new.lists ≤ max count (length self.old.lists) }
        ensures kept { KeepsRoom self.old.rooms self.new.rooms }
        ensures room { (k : ℕ) → length self.old.lists ≤ k → k < length self.new.lists → room ≤ slice_index self.new.rooms k }
        ensures ok { OnOk result (count ≤ length self.new.lists) }
    {
        for _ in self.count()..count {
            self.push(room)?;
        }
        Ok(())
    }

    // Prepares one further list.
    fn push(&mut self, room: usize) -> Result<(), AllocError>
        ensures lists { OnOk result (self.new.lists ≡ self.old.lists ++ [] ∷ []) }
        ensures even { IsEven self.new }
        ensures kept { KeepsRoom self.old.rooms self.new.rooms }
        ensures room { OnOk result (room ≤ slice_index self.new.rooms (length self.old.lists)) }
        ensures refused { OnErr result (self.new.lists ≡ self.old.lists) }
    {
        let mut row = Entries::new(self.alloc);
        row.reserve(room)?;
        self.rows.push(row)?;
        Ok(())
    }

    /// Adds an entry at the end of a list where it is not there yet, and tells whether it is new.
    pub fn add(&mut self, at: usize, item: T) -> bool
        requires list { at < length self.old.lists }
        requires room { Contains (list_at self.old.lists at) item ⊎ (0 < slice_index self.old.rooms at) }
        ensures is_new { IsTrue result → ¬ Contains (list_at self.old.lists at) item }
        ensures added { IsTrue result → self.new.lists ≡ slice_set self.old.lists at (list_at self.old.lists at ++ item ∷ []) }
        ensures was { result ≡ false → Contains (list_at self.old.lists at) item }
        ensures same { result ≡ false → self.new.lists ≡ self.old.lists }
        ensures even { IsEven self.new }
        ensures rooms { UsesRoomAt at self.old.rooms self.new.rooms }
    {
        self.rows[at].add(item)
    }
}
