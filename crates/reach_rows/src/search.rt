// A depth-first search of a whole graph, which finishes each node behind all that follows from it, unless the node is on a
// cycle. `ordering` and `closure` stand above.
ghost use Rattle.std.specs.Prelude.{◌≡◌, ◌<◌, ◌≤◌, ◌^◌, ◌↔◌, ℕ, [], length, slice_index, replicate, All, Contains, IsTrue, IfOk, OnOk, MatchOption};
ghost use Rattle.clean_base.specs.Lists.{At};
ghost use Rattle.reach_rows.specs.Reaches.{Reaches};
ghost use Rattle.reach_rows.specs.Graphs.{IsGraph, Steps};
ghost use Rattle.reach_rows.specs.Search.{IsStateOf, IsFinish, to_do, KeepsSeen, IsLast, SeesRow};

use clean_base::Seq;
use std::alloc::{AllocError, Global};

// How far the search has come with a node.
#[derive(Clone, Copy)]
enum Mark {
    Unseen,
    OnPath,
    Done,
}

// The state of a search.
#[derive(Drop)]
struct Search {
    // for each node
    marks: Vec<Mark>,
    // for each node, how many of the first nodes of its row are known to be seen
    passed: Vec<usize>,
    // from the node where the search began to the one where it is
    path: Vec<u32>,
    // in the order of being done
    done: Vec<u32>,
}

// Marks of so many nodes.
fn unseen(alloc: Global, count: usize) -> Result<Vec<Mark>, AllocError>
    ensures { IfOk result (λ v. v.items ≡ replicate count Mark.Unseen) }
{
    vec![in alloc; Mark::Unseen; count]
}

// So many zeros.
fn zeros(alloc: Global, count: usize) -> Result<Vec<usize>, AllocError>
    ensures { IfOk result (λ v. v.items ≡ replicate count 0) }
{
    vec![in alloc; 0usize; count]
}

impl Search {
    // A search that has seen nothing.
    fn new(alloc: Global, rows: &[Seq<u32>]) -> Result<Search, AllocError>
        ensures search { IfOk result (λ s. IsStateOf rows.now s) }
        ensures path { IfOk result (λ s. s.path.items ≡ []) }
    {
        let marks = unseen(alloc, rows.len())?;
        let passed = zeros(alloc, rows.len())?;
        let path = Vec::with_capacity(alloc, rows.len())?;
        let done = Vec::with_capacity(alloc, rows.len())?;
        Ok(Search {
            marks,
            passed,
            path,
            done,
        })
    }

    // The node where the search is.
    fn last(&self) -> Option<u32>
        ensures { MatchOption result (self.now.path.items ≡ []) (λ a. IsLast self.now.path.items a) }
    {
        let count = self.path.len();
        if count == 0 {
            return None;
        }
        Some(self.path[count - 1])
    }

    fn is_unseen(&self, node: u32) -> bool
        requires { node < length self.now.marks.items }
        ensures { IsTrue result ↔ At self.now.marks.items node Mark.Unseen }
    {
        match self.marks[node as usize] {
            Mark::Unseen => true,
            _ => false,
        }
    }

    // The first place of a row, from this one on, whose node isn't seen, or the end of the row.
    fn first_unseen(&self, row: &[u32], from: usize) -> usize
        requires { All (λ b. b < length self.now.marks.items) row.now }
        ensures within { result ≤ length row.now }
        ensures passed { (k : ℕ) → from ≤ k → k < result → At self.now.marks.items (slice_index row.now k) Mark.Unseen → ⊥ }
        ensures unseen { result < length row.now → At self.now.marks.items (slice_index row.now result) Mark.Unseen }
    {
        for at in from..row.len() {
            if self.is_unseen(row[at]) {
                return at;
            }
        }
        row.len()
    }

    // The first node of the row that isn't seen.
    fn next(&mut self, rows: &[Seq<u32>], node: u32) -> Option<u32>
        requires graph { IsGraph rows.now }
        requires search { IsStateOf rows.now self.old }
        requires node { node < length rows.now }
        ensures search { IsStateOf rows.now self.new }
        ensures marks { self.new.marks.items ≡ self.old.marks.items }
        ensures path { self.new.path.items ≡ self.old.path.items }
        ensures row { MatchOption result (SeesRow rows.now node self.new.marks.items) (λ b. Steps rows.now node b) }
        ensures unseen { MatchOption result (Unit {0}) (λ b. At self.new.marks.items b Mark.Unseen) }
    {
        let row = rows[node as usize].as_slice();
        let at = self.first_unseen(row, self.passed[node as usize]);
        if at == row.len() {
            return None;
        }
        self.passed[node as usize] = at;
        Some(row[at])
    }

    // Goes on to a node that is not seen yet.
    fn open(&mut self, rows: &[Seq<u32>], node: u32) -> Result<(), AllocError>
        requires search { IsStateOf rows.now self.old }
        requires unseen { At self.old.marks.items node Mark.Unseen }
        requires from { (a : ℕ) → Contains self.old.path.items a → Reaches (Steps rows.now) a node }
        ensures search { OnOk result (IsStateOf rows.now self.new) }
        ensures seen { OnOk result (KeepsSeen self.old.marks.items self.new.marks.items) }
        ensures marked { OnOk result (At self.new.marks.items node Mark.OnPath) }
        ensures less { OnOk result (to_do self.new.marks.items < to_do self.old.marks.items) }
    {
        self.marks[node as usize] = Mark::OnPath;
        self.path.push(node)?;
        Ok(())
    }

    // The node where the search is is done, as all of its row is seen.
    fn close(&mut self, rows: &[Seq<u32>], node: u32) -> Result<(), AllocError>
        requires graph { IsGraph rows.now }
        requires search { IsStateOf rows.now self.old }
        requires last { IsLast self.old.path.items node }
        requires row { SeesRow rows.now node self.old.marks.items }
        ensures search { OnOk result (IsStateOf rows.now self.new) }
        ensures seen { OnOk result (KeepsSeen self.old.marks.items self.new.marks.items) }
        ensures less { OnOk result (to_do self.new.marks.items < to_do self.old.marks.items) }
    {
        let _last = self.path.pop();
        self.marks[node as usize] = Mark::Done;
        self.done.push(node)?;
        Ok(())
    }

    // One step of the search: to a node of the row that isn't seen, or back where all of the row is.
    fn step(&mut self, rows: &[Seq<u32>], node: u32) -> Result<(), AllocError>
        requires graph { IsGraph rows.now }
        requires search { IsStateOf rows.now self.old }
        requires last { IsLast self.old.path.items node }
        ensures search { OnOk result (IsStateOf rows.now self.new) }
        ensures seen { OnOk result (KeepsSeen self.old.marks.items self.new.marks.items) }
        ensures less { OnOk result (to_do self.new.marks.items < to_do self.old.marks.items) }
    {
        let Some(next) = self.next(rows, node) else {
            return self.close(rows, node);
        };
        self.open(rows, next)
    }

    // Goes on until the path is done.
    fn finish(&mut self, rows: &[Seq<u32>]) -> Result<(), AllocError>
        requires graph { IsGraph rows.now }
        requires search { IsStateOf rows.now self.old }
        ensures search { OnOk result (IsStateOf rows.now self.new) }
        ensures path { OnOk result (self.new.path.items ≡ []) }
        ensures seen { OnOk result (KeepsSeen self.old.marks.items self.new.marks.items) }
    {
        while let Some(node) = self.last() {
            self.step(rows, node)?;
        }
        Ok(())
    }

    // Searches from a node, unless it is seen.
    fn search_from(&mut self, rows: &[Seq<u32>], node: u32) -> Result<(), AllocError>
        requires graph { IsGraph rows.now }
        requires search { IsStateOf rows.now self.old }
        requires path { self.old.path.items ≡ [] }
        requires node { node < length rows.now }
        ensures search { OnOk result (IsStateOf rows.now self.new) }
        ensures path { OnOk result (self.new.path.items ≡ []) }
        ensures seen { OnOk result (KeepsSeen self.old.marks.items self.new.marks.items) }
        ensures node { OnOk result (At self.new.marks.items node Mark.Unseen → ⊥) }
    {
        match self.marks[node as usize] {
            Mark::Unseen => {
                self.open(rows, node)?;
                self.finish(rows)
            }
            _ => Ok(()),
        }
    }
}

/// All nodes of a graph in the order in which a depth-first search is done with them.
pub fn finished(alloc: Global, rows: &[Seq<u32>]) -> Result<Vec<u32>, AllocError>
    requires graph { IsGraph rows.now }
    requires few { length rows.now < 2 ^ 32 }
    ensures { IfOk result (λ order. IsFinish rows.now order.items) }
{
    let mut search = Search::new(alloc, rows)?;
    for node in 0..rows.len() {
        search.search_from(rows, node as u32)?;
    }
    Ok(search.done)
}
