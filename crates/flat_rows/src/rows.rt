// Lists of lists in one allocation for all items. `chains` and `backwards` stand above.
ghost use Rattle.std.specs.Prelude.{◌≡◌, ◌<◌, ◌≤◌, ◌+◌, ◌-◌, ◌++◌, ◌∷◌, [], List, length, slice_index_or, take, drop, OnOk};
ghost use Rattle.flat_rows.specs.Rows.{AddsToLast, AreStarts, rows_at};

use std::alloc::{AllocError, Global};
use std::marker::Model;

/// Rows of items, all of which stand in one list.
#[derive(Debug, Drop)]
pub struct FlatRows<T> {
    items: Vec<T>,
    // Where each row begins.
    starts: Vec<usize>,
}

impl<T> Model for FlatRows<T> {
    ghost Value = { List (List T) };

    ghost view = { λ r. rows_at r.starts.items r.items.items };

    ghost invariant = { λ r. AreStarts r.starts.items (length r.items.items) };
}

// Where the row behind this one begins; the last ends with the items.
fn end_of(starts: &[usize], row: usize, count: usize) -> usize
    requires { row < length starts.now }
    ensures { result ≡ slice_index_or starts.now (row + 1) count }
{
    let next = row + 1;
    if next < starts.len() {
        return starts[next];
    }
    count
}

// The items from one place up to another.
fn part<T: Copy>(items: &[T], start: usize, end: usize) -> &[T]
    requires order { start ≤ end }
    requires within { end ≤ length items.now }
    ensures { result.now ≡ take (end - start) (drop start items.now) }
{
    &items[start..end]
}

// The row at a place, by where each row begins.
fn row_of<'a, T: Copy>(items: &'a [T], starts: &[usize], row: usize) -> &'a [T]
    requires starts { AreStarts starts.now (length items.now) }
    requires row { row < length starts.now }
    ensures { result.now ≡ slice_index_or (rows_at starts.now items.now) row [] }
{
    let start = starts[row];
    let end = end_of(starts, row, items.len());
    part(items, start, end)
}

impl<T: Copy> FlatRows<T> {
    /// No rows.
    pub fn new(alloc: Global) -> FlatRows<T>
        ensures { result ≡ [] }
    {
        FlatRows {
            items: Vec::new(alloc),
            starts: Vec::new(alloc),
        }
    }

    /// Begins a row, which has no item yet.
    pub fn open_row(&mut self) -> Result<(), AllocError>
        ensures { OnOk result (self.new ≡ self.old ++ [] ∷ []) }
    {
        self.starts.push(self.items.len())?;
        Ok(())
    }

    /// Adds an item to the last row.
    pub fn add(&mut self, item: T) -> Result<(), AllocError>
        requires { 0 < length self.old }
        ensures { OnOk result (AddsToLast self.old (item ∷ []) self.new) }
    {
        self.items.push(item)?;
        Ok(())
    }

    /// Adds items to the last row.
    pub fn add_all(&mut self, items: &[T]) -> Result<(), AllocError>
        requires { 0 < length self.old }
        ensures { OnOk result (AddsToLast self.old items.now self.new) }
    {
        self.items.extend_from_slice(items)?;
        Ok(())
    }

    /// Adds a row.
    pub fn push_row(&mut self, row: &[T]) -> Result<(), AllocError>
        ensures { OnOk result (self.new ≡ self.old ++ row.now ∷ []) }
    {
        self.open_row()?;
        self.add_all(row)
    }

    /// How many rows there are.
    pub fn len(&self) -> usize
        ensures { result ≡ length self.now }
    {
        self.starts.len()
    }

    /// The row at a place.
    pub fn row(&self, i: usize) -> &[T]
        requires { i < length self.now }
        ensures { result.now ≡ slice_index_or self.now i [] }
    {
        row_of(self.items.as_slice(), self.starts.as_slice(), i)
    }
}
