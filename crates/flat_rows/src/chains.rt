// For each node of a graph the chain of the nodes that lead to it. Rows stand below; `backwards` above.
ghost use Rattle.std.specs.Prelude.{◌≡◌, ◌<◌, ◌+◌, ◌^◌, ◌≤◌, ◌∷◌, [], ℕ, List, length, replicate, slice_index, true, false, IfOk, OnOk};
ghost use Rattle.flat_rows.specs.Chains.{AreChains, Chain, LeadsFrom, Linked};
ghost use Rattle.flat_rows.specs.Converse.{IsGraph};

use crate::FlatRows;
use std::alloc::{AllocError, Global};

/// A node, and the number of the link behind it, counted from 1, or 0.
#[derive(Clone, Copy, Debug)]
pub struct Link {
    pub node: u32,
    pub next: usize,
}

/// For each node the number of its first link, or 0.
#[derive(Drop)]
pub struct Chains {
    pub heads: Vec<usize>,
    pub links: Vec<Link>,
}

// Whether the chain begins with the node.
fn begins_with(links: &[Link], head: usize, node: u32) -> bool
    requires { (ps : List ℕ) × Chain links.now head ps }
    ensures yes { result ≡ true → (ps : List ℕ) × Chain links.now head (node ∷ ps) }
    ensures no { result ≡ false → (ps : List ℕ) → Chain links.now head (node ∷ ps) → ⊥ }
{
    if head == 0 {
        return false;
    }
    links[head - 1].node == node
}

// Puts a node in front of the chain of another.
fn add_link(
    heads: &mut [usize],
    links: &mut Vec<Link>,
    node: u32,
    at: usize,
) -> Result<(), AllocError>
    requires within { at < length heads.old }
    requires chain { (ps : List ℕ) × Chain links.old.items (slice_index heads.old at) ps }
    ensures { OnOk result (Linked heads.old links.old.items node at heads.new links.new.items) }
{
    let next = heads[at];
    let again = begins_with(links.as_slice(), next, node);
    if again {
        return Ok(());
    }
    links.push(Link { node, next })?;
    heads[at] = links.len();
    Ok(())
}

// Puts a node in front of the chains of those to which it leads.
fn add_row(
    heads: &mut [usize],
    links: &mut Vec<Link>,
    rows: &FlatRows<u32>,
    node: usize,
) -> Result<(), AllocError>
    requires graph { IsGraph rows.now }
    requires few { length rows.now ≤ 2 ^ 32 }
    requires node { node < length rows.now }
    requires chains { AreChains (LeadsFrom rows.now (node + 1)) (length rows.now) heads.old links.old.items }
    ensures { OnOk result (AreChains (LeadsFrom rows.now node) (length rows.now) heads.new links.new.items) }
{
    for at in rows.row(node) {
        add_link(heads, links, node as u32, *at as usize)?;
    }
    Ok(())
}

// So many numbers 0.
fn zeros(alloc: Global, count: usize) -> Result<Vec<usize>, AllocError>
    ensures { IfOk result (λ v. v.items ≡ replicate count 0) }
{
    vec![in alloc; 0usize; count]
}

/// The chains of all nodes, of those that lead to each in order.
pub fn chains_of(alloc: Global, rows: &FlatRows<u32>) -> Result<Chains, AllocError>
    requires graph { IsGraph rows.now }
    requires few { length rows.now ≤ 2 ^ 32 }
    ensures { IfOk result (λ c. AreChains (LeadsFrom rows.now 0) (length rows.now) c.heads.items c.links.items) }
{
    let mut heads = zeros(alloc, rows.len())?;
    let mut links = Vec::new(alloc);
    let heads_slice = heads.as_mut_slice();
    let mut node = rows.len();
    while node > 0 {
        node -= 1;
        add_row(heads_slice, &mut links, rows, node)?;
    }
    Ok(Chains { heads, links })
}
