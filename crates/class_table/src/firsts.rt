// What stands first on depth-first walks of a graph without cycles, from each of its nodes. The graphs of the hierarchy stand
// below; the resolution of calls above.
ghost use Rattle.std.specs.Prelude.{◌≡◌, ◌<◌, ℕ, All, IfOk, length};
ghost use Rattle.reach_rows.specs.Graphs.{row, IsGraph, IsOrder};
ghost use Rattle.class_table.specs.Alongs.{taken, AreAlong, AreNext};

use crate::members::Place;
use clean_base::Seq;
use std::alloc::{AllocError, Global};

// The first place that these nodes have.
fn first_of(places: &[Option<Place>], nodes: &[u32]) -> Option<Place>
    requires { All (λ (a : ℕ). a < length places.now) nodes.now }
    ensures { result ≡ taken places.now nodes.now }
{
    for node in nodes {
        if let Some(place) = places[*node as usize] {
            return Some(place);
        }
    }
    None
}

/// For each node the first place that the nodes of its row have.
pub fn next(
    alloc: Global,
    rows: &[Seq<u32>],
    places: &[Option<Place>],
) -> Result<Vec<Option<Place>>, AllocError>
    requires graph { IsGraph rows.now }
    requires places { length places.now ≡ length rows.now }
    ensures { IfOk result (λ v. AreNext rows.now places.now v.items) }
{
    let mut found = Vec::new(alloc);
    for row in rows {
        found.push(first_of(places, row.as_slice()))?;
    }
    Ok(found)
}

/// For each node the first place that the nodes have on a walk from it. The order is one in which each node stands behind those
/// of its row.
pub fn along(
    alloc: Global,
    rows: &[Seq<u32>],
    order: &[u32],
    places: &[Option<Place>],
) -> Result<Vec<Option<Place>>, AllocError>
    requires graph { IsGraph rows.now }
    requires order { IsOrder rows.now order.now }
    requires places { length places.now ≡ length rows.now }
    ensures { IfOk result (λ v. AreAlong rows.now places.now v.items) }
{
    let mut found = Vec::from_slice(alloc, places)?;
    for node in order {
        let at = *node as usize;
        if found[at].is_none() {
            found[at] = first_of(found.as_slice(), rows[at].as_slice());
        }
    }
    Ok(found)
}
