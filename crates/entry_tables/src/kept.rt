// How the entries of one list are kept: a few in a row that is searched in order, many in an ordered set. A list turns
// from the one to the other where room is made, so that adding takes no memory. Nothing here knows what an entry is.
ghost use Rattle.std.specs.Prelude.{◌≡◌, ◌⊎◌, ◌≤◌, ◌<◌, ◌+◌, ◌-◌, ◌++◌, ◌∷◌, [], IsTrue, false, length, Contains, OnOk, IfOk, vec_len, vec_capacity};
ghost use Rattle.indexmap.specs.IndexSet.{spare};
ghost use Rattle.ifds_model.specs.State.{At, IsDistinct};
ghost use Rattle.entry_tables.specs.Kept.{items_of, spare_of};

use crate::places::{place_new, place_once};
use clean_base::Plain;
use indexmap::IndexSet;
use std::alloc::{AllocError, Global};

// How many entries are searched in order: past them a look-up in a set is faster.
const SHORT: usize = 8;

/// The entries of one list, in the order of adding.
#[derive(Drop)]
pub enum Kept<T: Plain> {
    Short(Vec<T>),
    Long(Box<IndexSet<T>>),
}

impl<T: Plain> Kept<T> {
    /// No entries.
    pub fn new(alloc: Global) -> Self
        ensures { items_of result ≡ [] }
    {
        Kept::Short(Vec::new(alloc))
    }

    /// The number of entries.
    pub fn len(&self) -> usize
        ensures { result ≡ length (items_of self.now) }
    {
        match self {
            Kept::Short(items) => items.len(),
            Kept::Long(set) => set.len(),
        }
    }

    /// The entry at a place.
    pub fn get(&self, at: usize) -> T
        requires { at < length (items_of self.now) }
        ensures { At (items_of self.now) at result }
    {
        match self {
            Kept::Short(items) => items[at],
            Kept::Long(set) => set.as_slice()[at],
        }
    }

    /// Makes room for so many further entries.
    pub fn reserve(&mut self, more: usize) -> Result<(), AllocError>
        requires { IsDistinct (items_of self.old) }
        ensures same { items_of self.new ≡ items_of self.old }
        ensures kept { spare_of self.old ≤ spare_of self.new }
        ensures ok { OnOk result (more ≤ spare_of self.new) }
    {
        self.lengthen(more)?;
        match self {
            Kept::Short(items) => items.reserve(more),
            Kept::Long(set) => set.reserve(more),
        }
    }

    // Turns to a set where so many further entries are too many to be searched in order.
    fn lengthen(&mut self, more: usize) -> Result<(), AllocError>
        requires { IsDistinct (items_of self.old) }
        ensures same { items_of self.new ≡ items_of self.old }
        ensures kept { spare_of self.old ≤ spare_of self.new }
    {
        let Kept::Short(items) = self else {
            return Ok(());
        };
        if items.len() <= SHORT && more <= SHORT - items.len() {
            return Ok(());
        }
        let set = indexed(items, more)?;
        *self = Kept::Long(set);
        Ok(())
    }

    /// Adds an entry at the end where it is not there yet, and tells whether it is new.
    pub fn add(&mut self, item: T) -> bool
        requires { Contains (items_of self.old) item ⊎ (0 < spare_of self.old) }
        ensures is_new { IsTrue result → ¬ Contains (items_of self.old) item }
        ensures added { IsTrue result → items_of self.new ≡ items_of self.old ++ item ∷ [] }
        ensures was { result ≡ false → Contains (items_of self.old) item }
        ensures same { result ≡ false → items_of self.new ≡ items_of self.old }
        ensures room { spare_of self.old ≤ spare_of self.new + 1 }
    {
        match self {
            Kept::Short(items) => add_short(items, item),
            Kept::Long(set) => place_once(set.as_mut(), item),
        }
    }
}

// Adds an entry to a row where it is not there yet.
fn add_short<T: Plain>(items: &mut Vec<T>, item: T) -> bool
    requires { Contains items.old.items item ⊎ (vec_len items.old < vec_capacity items.old) }
    ensures is_new { IsTrue result → ¬ Contains items.old.items item }
    ensures added { IsTrue result → items.new.items ≡ items.old.items ++ item ∷ [] }
    ensures was { result ≡ false → Contains items.old.items item }
    ensures same { result ≡ false → items.new.items ≡ items.old.items }
    ensures room { vec_capacity items.old - vec_len items.old ≤ vec_capacity items.new - vec_len items.new + 1 }
{
    if has(items.as_slice(), &item) {
        return false;
    }
    match items.push(item) {
        Ok(()) => true,
        Err(_) => unreachable!(),
    }
}

fn has<T: Plain>(items: &[T], item: &T) -> bool
    ensures yes { IsTrue result → Contains items.now item.now }
    ensures no { result ≡ false → ¬ Contains items.now item.now }
{
    items.contains(item)
}

// A set of the entries of a row, with its room and with room for so many further ones.
fn indexed<T: Plain>(items: &Vec<T>, more: usize) -> Result<Box<IndexSet<T>>, AllocError>
    requires { IsDistinct items.now.items }
    ensures keys { IfOk result (λ set. set.value.keys ≡ items.now.items) }
    ensures kept { IfOk result (λ set. vec_capacity items.now - vec_len items.now ≤ spare set.value) }
{
    let Some(count) = items.len().checked_add(more) else {
        return Err(AllocError);
    };
    let alloc = *items.allocator();
    let mut set = IndexSet::with_capacity(alloc, count.max(items.capacity()))?;
    copy_all(&mut set, items.as_slice());
    let set = Box::new(alloc, set)?;
    Ok(set)
}

// Adds the entries of a row to an empty set.
fn copy_all<T: Plain>(set: &mut IndexSet<T>, items: &[T])
    requires empty { set.old.keys ≡ [] }
    requires distinct { IsDistinct items.now }
    requires room { length items.now ≤ spare set.old }
    ensures keys { set.new.keys ≡ items.now }
    ensures spare { spare set.old ≤ spare set.new + length items.now }
{
    for item in items {
        place_new(set, *item);
    }
}
