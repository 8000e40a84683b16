// A graph turned the other way, in time linear in its nodes and their entries. Chains stand below.
ghost use Rattle.std.specs.Prelude.{◌≡◌, ◌<◌, ◌≤◌, ◌^◌, ◌++◌, ◌∷◌, [], ℕ, List, length, IfOk, OnOk};
ghost use Rattle.flat_rows.specs.Chains.{Chain};
ghost use Rattle.flat_rows.specs.Converse.{IsConverse, IsGraph};

use crate::FlatRows;
use crate::chains::{Link, chains_of};
use std::alloc::{AllocError, Global};

// Adds the nodes of a chain as a row.
fn add_chain(back: &mut FlatRows<u32>, links: &[Link], head: usize) -> Result<(), AllocError>
    requires { (ps : List ℕ) × Chain links.now head ps }
    ensures { OnOk result ((ps : List ℕ) × Chain links.now head ps × (back.new ≡ back.old ++ ps ∷ [])) }
{
    back.open_row()?;
    let mut at = head;
    while at > 0 {
        let link = links[at - 1];
        back.add(link.node)?;
        at = link.next;
    }
    Ok(())
}

/// The graph turned the other way: a row for each node, with the nodes whose rows have it, in order and each once.
pub fn converse(alloc: Global, rows: &FlatRows<u32>) -> Result<FlatRows<u32>, AllocError>
    requires graph { IsGraph rows.now }
    requires few { length rows.now ≤ 2 ^ 32 }
    ensures { IfOk result (λ back. IsConverse rows.now back) }
{
    let chains = chains_of(alloc, rows)?;
    let heads = chains.heads.as_slice();
    let links = chains.links.as_slice();
    let mut back = FlatRows::new(alloc);
    for node in 0..rows.len() {
        add_chain(&mut back, links, heads[node])?;
    }
    Ok(back)
}
