// Graphs by their rows.
ghost use Rattle.std.specs.Prelude.{◌<◌, All, IsTrue};
ghost use Rattle.reach_rows.specs.Graphs.{IsGraph};

use clean_base::Seq;
use std::alloc::{AllocError, Global};

pub fn graph(alloc: Global, lists: &[&[u32]]) -> Result<Vec<Seq<u32>>, AllocError> {
    let mut rows = Vec::new(alloc);
    for list in lists {
        rows.push(Seq::from_vec(Vec::from_slice(alloc, list)?))?;
    }
    Ok(rows)
}

fn is_within(row: &[u32], count: usize) -> bool
    ensures { IsTrue result → All (λ b. b < count) row.now }
{
    row.iter().all(|b| (*b as usize) < count)
}

pub fn is_graph(rows: &[Seq<u32>]) -> bool
    ensures { IsTrue result → IsGraph rows.now }
{
    for row in rows {
        if !is_within(row.as_slice(), rows.len()) {
            return false;
        }
    }
    true
}
