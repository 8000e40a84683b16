// An order of the nodes of a graph without cycles, or the first node on a cycle.
ghost use Rattle.std.specs.Prelude.{◌<◌, ◌^◌, ℕ, length, IfOk, IfErr};
ghost use Rattle.reach_rows.specs.Graphs.{IsGraph, IsOrder, IsOnCycle};
ghost use Rattle.reach_rows.specs.Stops.{HasCycle};

use crate::cycle::first_on_cycle;
use crate::search::finished;
use clean_base::Seq;
use std::alloc::Global;

/// Why a graph has no order.
#[derive(Debug, Drop)]
pub enum OrderStop {
    /// The first node that is reached from itself.
    Cycle(u32),
    OutOfMemory,
}

/// All nodes of a graph, each behind those to which one step leads from it. An error is `Cycle`, exactly where some node is
/// reached from itself by one or more steps, with the first such node, or want of memory.
pub fn order(alloc: Global, rows: &[Seq<u32>]) -> Result<Vec<u32>, OrderStop>
    requires graph { IsGraph rows.now }
    requires few { length rows.now < 2 ^ 32 }
    ensures ok { IfOk result (λ order. IsOrder rows.now order.items) }
    ensures acyclic { IfOk result (λ order. (a : ℕ) → IsOnCycle rows.now a → ⊥) }
    ensures cycle { IfErr result (HasCycle rows.now) }
{
    let Ok(order) = finished(alloc, rows) else {
        return Err(OrderStop::OutOfMemory);
    };
    match first_on_cycle(alloc, rows, order.as_slice()) {
        Ok(None) => Ok(order),
        Ok(Some(node)) => Err(OrderStop::Cycle(node)),
        Err(_) => Err(OrderStop::OutOfMemory),
    }
}
