// The graph whose steps lead the other way. `cycle` stands above.
ghost use Rattle.std.specs.Prelude.{◌≡◌, ◌<◌, ◌^◌, ◌++◌, ◌∷◌, [], All, length, replicate, slice_index_or, slice_set, IfOk, OnOk};
ghost use Rattle.reach_rows.specs.Backward.{IsBackward, AddsTo};
ghost use Rattle.reach_rows.specs.Graphs.{IsGraph};

use clean_base::Seq;
use std::alloc::{AllocError, Global};
use std::marker::Model;

/// A row to which nodes are added.
#[derive(Drop)]
pub struct Nodes {
    items: Vec<u32>,
}

impl Model for Nodes {
    ghost use Rattle.std.specs.Prelude.{ℕ, List};

    ghost Value = { List ℕ };

    ghost view = { λ s. s.items.items };
}

impl Nodes {
    fn new(alloc: Global) -> Nodes
        ensures { result ≡ [] }
    {
        Nodes {
            items: Vec::new(alloc),
        }
    }

    fn add(&mut self, node: u32) -> Result<(), AllocError>
        ensures { OnOk result (self.new ≡ self.old ++ node ∷ []) }
    {
        self.items.push(node)?;
        Ok(())
    }

    pub fn as_slice(&self) -> &[u32]
        ensures { result.now ≡ self.now }
    {
        self.items.as_slice()
    }
}

// So many empty rows.
fn empty_rows(alloc: Global, count: usize) -> Result<Vec<Nodes>, AllocError>
    ensures { IfOk result (λ rows. rows.items ≡ replicate count []) }
{
    let mut rows = Vec::new(alloc);
    for _ in 0..count {
        rows.push(Nodes::new(alloc))?;
    }
    Ok(rows)
}

fn add_at(rows: &mut [Nodes], at: usize, node: u32) -> Result<(), AllocError>
    requires { at < length rows.old }
    ensures { OnOk result (rows.new ≡ slice_set rows.old at (slice_index_or rows.old at [] ++ node ∷ [])) }
{
    rows[at].add(node)
}

// Adds a node to the rows of these others.
fn add_to(rows: &mut [Nodes], others: &[u32], node: u32) -> Result<(), AllocError>
    requires { All (λ b. b < length rows.old) others.now }
    ensures { OnOk result (AddsTo others.now node rows.old rows.new) }
{
    for other in others {
        add_at(rows, *other as usize, node)?;
    }
    Ok(())
}

// Adds each node to the rows of those to which one step leads from it.
fn add_all(backs: &mut [Nodes], rows: &[Seq<u32>]) -> Result<(), AllocError>
    requires graph { IsGraph rows.now }
    requires few { length rows.now < 2 ^ 32 }
    requires empty { backs.old ≡ replicate (length rows.now) [] }
    ensures { OnOk result (IsBackward rows.now backs.new) }
{
    for node in 0..rows.len() {
        add_to(backs, rows[node].as_slice(), node as u32)?;
    }
    Ok(())
}

/// The graph whose steps are those of this one the other way.
pub fn backward(alloc: Global, rows: &[Seq<u32>]) -> Result<Vec<Nodes>, AllocError>
    requires graph { IsGraph rows.now }
    requires few { length rows.now < 2 ^ 32 }
    ensures { IfOk result (λ backs. IsBackward rows.now backs.items) }
{
    let mut backs = empty_rows(alloc, rows.len())?;
    add_all(backs.as_mut_slice(), rows)?;
    Ok(backs)
}
