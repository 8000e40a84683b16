// The successors of all statements of a body as rows of numbers. `bodies` stands below; `listed` above.
ghost use Rattle.std.specs.Prelude.{◌≡◌, ◌≢◌, ◌<◌, ◌≤◌, ◌+◌, ◌^◌, ◌++◌, ◌∷◌, [], ℕ, List, All, OnOk, length, map, slice_index_or};
ghost use Rattle.clean_base.specs.Limits.{most_stmts};
ghost use Rattle.jimple_tree.specs.WellFormed.{BodyFits};
ghost use Rattle.flat_rows.specs.Rows.{AddsToLast};
ghost use Rattle.statement_graph.specs.Successors.{AreRows, IsShifted};

use crate::bodies::lists_of;
use crate::successors::Places;
use flat_rows::FlatRows;
use jimple_tree::Body;
use std::alloc::{AllocError, Global};

// Adds to the last row the numbers of the statements at these places, where the first statement has this number.
fn add_numbers(rows: &mut FlatRows<u32>, places: &[u32], first: usize) -> Result<(), AllocError>
    requires some { 0 < length rows.old }
    requires fit { All (λ t. first + t < 2 ^ 32) places.now }
    ensures { OnOk result (AddsToLast rows.old (map (λ t. first + t) places.now) rows.new) }
{
    for place in places {
        let number = first + *place as usize;
        rows.add(number as u32)?;
    }
    Ok(())
}

// Adds a row of them, in order and each once.
fn add_row(rows: &mut FlatRows<u32>, places: &mut Places, first: usize) -> Result<(), AllocError>
    requires { All (λ t. first + t < 2 ^ 32) places.old }
    ensures { OnOk result ((row : List ℕ) × IsShifted first places.old row × (rows.new ≡ rows.old ++ row ∷ [])) }
{
    places.sort();
    rows.open_row()?;
    add_numbers(rows, places.as_slice(), first)
}

// Adds the row of one of these lists, and puts that list in order.
fn add_row_at(
    rows: &mut FlatRows<u32>,
    lists: &mut [Places],
    at: usize,
    first: usize,
) -> Result<(), AllocError>
    requires within { at < length lists.old }
    requires fit { All (λ t. first + t < 2 ^ 32) (slice_index_or lists.old at []) }
    ensures row { OnOk result ((row : List ℕ) × IsShifted first (slice_index_or lists.old at []) row × (rows.new ≡ rows.old ++ row ∷ [])) }
    ensures others { (s : ℕ) → s ≢ at → slice_index_or lists.new s [] ≡ slice_index_or lists.old s [] }
{
    add_row(rows, &mut lists[at], first)
}

/// Adds a row for each statement of a body, whose first statement has this number.
pub fn add_rows(
    alloc: Global,
    rows: &mut FlatRows<u32>,
    body: &Body,
    first: usize,
) -> Result<(), AllocError>
    requires fits { BodyFits body.now }
    requires few { first + length body.now.stmts ≤ most_stmts }
    ensures { OnOk result ((more : List (List ℕ)) × AreRows body.now first (length body.now.stmts) more × (rows.new ≡ rows.old ++ more)) }
{
    let mut lists = lists_of(alloc, body)?;
    let places = lists.as_mut_slice();
    for at in 0..places.len() {
        add_row_at(rows, places, at, first)?;
    }
    Ok(())
}
