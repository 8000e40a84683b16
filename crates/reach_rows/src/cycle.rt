// The first node of a graph that is reached from itself. `search` and `backward` stand below; `ordering` above.
//
// The nodes are taken from the last finished one to the first. What leads to one of those that were taken is seen, each node
// once; a node that is taken is on a cycle exactly where one of its row is seen.
ghost use Rattle.std.specs.Prelude.{◌≡◌, ◌<◌, ◌^◌, ◌↔◌, ◌∷◌, ℕ, [], length, replicate, true, false, All, Contains, IsTrue, IfOk, OnOk, MatchOption};
ghost use Rattle.clean_base.specs.Lists.{At};
ghost use Rattle.reach_rows.specs.Graphs.{IsGraph, IsOnCycle, IsFirstOnCycle};
ghost use Rattle.reach_rows.specs.Search.{IsFinish};
ghost use Rattle.reach_rows.specs.Cycles.{AreTold, IsAdded, IsSpread, IsWhole};

use crate::backward::{Nodes, backward};
use clean_base::Seq;
use std::alloc::{AllocError, Global};

// The search for what is reached from some nodes.
#[derive(Drop)]
struct Flood {
    // for each node
    seen: Vec<bool>,
    // those whose rows are not seen yet
    waiting: Vec<u32>,
}

// So many nodes that are not seen.
fn none_seen(alloc: Global, count: usize) -> Result<Vec<bool>, AllocError>
    ensures { IfOk result (λ v. v.items ≡ replicate count false) }
{
    vec![in alloc; false; count]
}

impl Flood {
    // Nothing is seen.
    fn new(alloc: Global, count: usize) -> Result<Flood, AllocError>
        ensures seen { IfOk result (λ f. f.seen.items ≡ replicate count false) }
        ensures waiting { IfOk result (λ f. f.waiting.items ≡ []) }
    {
        let seen = none_seen(alloc, count)?;
        Ok(Flood {
            seen,
            waiting: Vec::new(alloc),
        })
    }

    // A node is seen.
    fn add(&mut self, node: u32) -> Result<(), AllocError>
        requires { node < length self.old.seen.items }
        ensures { OnOk result (IsAdded (node ∷ []) self.old.seen.items self.old.waiting.items self.new.seen.items self.new.waiting.items) }
    {
        if self.seen[node as usize] {
            return Ok(());
        }
        self.seen[node as usize] = true;
        self.waiting.push(node)?;
        Ok(())
    }

    // All of a row is seen.
    fn add_row(&mut self, row: &[u32]) -> Result<(), AllocError>
        requires { All (λ b. b < length self.old.seen.items) row.now }
        ensures { OnOk result (IsAdded row.now self.old.seen.items self.old.waiting.items self.new.seen.items self.new.waiting.items) }
    {
        for node in row {
            self.add(*node)?;
        }
        Ok(())
    }

    // A node is seen, and all that is reached from it.
    fn spread(&mut self, rows: &[Nodes], node: u32) -> Result<(), AllocError>
        requires graph { IsGraph rows.now }
        requires node { node < length rows.now }
        requires whole { IsWhole rows.now self.old.seen.items self.old.waiting.items }
        ensures spread { OnOk result (IsSpread rows.now node self.old.seen.items self.new.seen.items) }
        ensures whole { OnOk result (IsWhole rows.now self.new.seen.items self.new.waiting.items) }
    {
        self.add(node)?;
        while let Some(next) = self.waiting.pop() {
            self.add_row(rows[next as usize].as_slice())?;
        }
        Ok(())
    }

    // Tells whether any of these nodes is seen.
    fn sees_any(&self, nodes: &[u32]) -> bool
        requires { All (λ b. b < length self.now.seen.items) nodes.now }
        ensures { IsTrue result ↔ ((b : ℕ) × Contains nodes.now b × At self.now.seen.items b true) }
    {
        for node in nodes {
            if self.seen[*node as usize] {
                return true;
            }
        }
        false
    }
}

// Tells of each node whether it is reached from itself.
fn on_cycles(alloc: Global, rows: &[Seq<u32>], order: &[u32]) -> Result<Vec<bool>, AllocError>
    requires graph { IsGraph rows.now }
    requires few { length rows.now < 2 ^ 32 }
    requires order { IsFinish rows.now order.now }
    ensures { IfOk result (λ told. AreTold rows.now told.items) }
{
    let backs = backward(alloc, rows)?;
    let mut told = none_seen(alloc, rows.len())?;
    let mut flood = Flood::new(alloc, rows.len())?;
    for passed in 0..order.len() {
        let node = order[order.len() - 1 - passed];
        flood.spread(backs.as_slice(), node)?;
        told[node as usize] = flood.sees_any(rows[node as usize].as_slice());
    }
    Ok(told)
}

// The first place that holds `true`.
fn first_true(told: &[bool]) -> Option<usize>
    ensures { MatchOption result (All (λ b. b ≡ false) told.now) (λ at. At told.now at true × ((k : ℕ) → k < at → At told.now k false)) }
{
    for at in 0..told.len() {
        if told[at] {
            return Some(at);
        }
    }
    None
}

/// The first node that is reached from itself, if any is. `order` is that in which a search was done with the nodes.
pub fn first_on_cycle(
    alloc: Global,
    rows: &[Seq<u32>],
    order: &[u32],
) -> Result<Option<u32>, AllocError>
    requires graph { IsGraph rows.now }
    requires few { length rows.now < 2 ^ 32 }
    requires order { IsFinish rows.now order.now }
    ensures { IfOk result (λ found. MatchOption found ((a : ℕ) → IsOnCycle rows.now a → ⊥) (λ a. IsFirstOnCycle rows.now a)) }
{
    let told = on_cycles(alloc, rows, order)?;
    match first_true(told.as_slice()) {
        Some(node) => Ok(Some(node as u32)),
        None => Ok(None),
    }
}
