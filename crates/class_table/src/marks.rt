// Which nodes of a graph without cycles lead to one, and to which it leads. The graphs of the hierarchy stand below; the table
// above.
ghost use Rattle.std.specs.Prelude.{◌≡◌, ◌↔◌, ◌<◌, ℕ, true, false, All, Contains, IfOk, IsTrue, length, replicate};
ghost use Rattle.clean_base.specs.Lists.{At};
ghost use Rattle.reach_rows.specs.Graphs.{row, IsGraph, IsOrder, Steps};
ghost use Rattle.reach_rows.specs.Reaches.{Reaches};
ghost use Rattle.class_table.specs.Marks.{AreMarked, Spreads};

use clean_base::Seq;
use std::alloc::{AllocError, Global};

// No marks.
fn unmarked(alloc: Global, count: usize) -> Result<Vec<bool>, AllocError>
    ensures { IfOk result (λ marks. marks.items ≡ replicate count false) }
{
    vec![in alloc; false; count]
}

// Whether some of these nodes has a mark.
fn any_marked(marks: &[bool], nodes: &[u32]) -> bool
    requires { All (λ (a : ℕ). a < length marks.now) nodes.now }
    ensures { IsTrue result ↔ ((a : ℕ) × Contains nodes.now a × At marks.now a true) }
{
    for node in nodes {
        if marks[*node as usize] {
            return true;
        }
    }
    false
}

// Marks these nodes.
fn mark_all(marks: &mut [bool], nodes: &[u32])
    requires { All (λ (a : ℕ). a < length marks.old) nodes.now }
    ensures { Spreads (Contains nodes.now) marks.old marks.new }
{
    for node in nodes {
        marks[*node as usize] = true;
    }
}

/// For each node whether it is this one, or leads to it. The order is one of the graph's.
pub fn below(
    alloc: Global,
    rows: &[Seq<u32>],
    order: &[u32],
    node: u32,
) -> Result<Vec<bool>, AllocError>
    requires graph { IsGraph rows.now }
    requires order { IsOrder rows.now order.now }
    requires node { node < length rows.now }
    ensures { IfOk result (λ marks. AreMarked rows.now (λ a. Reaches (Steps rows.now) a node) marks.items) }
{
    let mut marks = unmarked(alloc, rows.len())?;
    for next in order {
        let nexts = rows[*next as usize].as_slice();
        marks[*next as usize] = *next == node || any_marked(marks.as_slice(), nexts);
    }
    Ok(marks)
}

/// For each node whether it is this one, or this one leads to it. The order is one of the graph's.
pub fn above(
    alloc: Global,
    rows: &[Seq<u32>],
    order: &[u32],
    node: u32,
) -> Result<Vec<bool>, AllocError>
    requires graph { IsGraph rows.now }
    requires order { IsOrder rows.now order.now }
    requires node { node < length rows.now }
    ensures { IfOk result (λ marks. AreMarked rows.now (λ a. Reaches (Steps rows.now) node a) marks.items) }
{
    let mut marks = unmarked(alloc, rows.len())?;
    marks[node as usize] = true;
    for passed in 0..order.len() {
        let next = order[order.len() - 1 - passed] as usize;
        if marks[next] {
            mark_all(marks.as_mut_slice(), rows[next].as_slice());
        }
    }
    Ok(marks)
}
