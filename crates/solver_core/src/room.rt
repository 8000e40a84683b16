// Room for moves that are ready. Making it may fail for want of memory, and contracts then see the state as it was.
// Moves that are ready stand beside; taking them in, for which no memory is left to ask, stands above.
ghost use Rattle.std.specs.Prelude.{◌≡◌, ◌≤◌, ◌<◌, ◌+◌, length, slice_index, Contains, IfOk, OnOk};
ghost use Rattle.std.specs.List.{sum_by};
ghost use Rattle.std.specs.VecDeque.{deque_len, deque_capacity};
ghost use Rattle.clean_base.specs.declared.ids.StmtId.{StmtId};
ghost use Rattle.entry_tables.specs.Tables.{IsUnchanged, KeepsAllRoom};
ghost use Rattle.ifds_model.specs.State.{IsDistinct};
ghost use Rattle.solver_core.specs.Hands.{in_hand};
ghost use Rattle.solver_core.specs.Room.{JoinsWithin, HasCallerRoom, HasRoomFor, IsSame, StandsAt, calls_of, edges_of, leaves_of, works_of};
ghost use Rattle.solver_core.specs.Seen.{AreFit, HasRoom};

use crate::parts::Parts;
use crate::pending::out_of;
use crate::ready::{Kinds, Ready, plus};
use clean_base::Plain;
use entry_tables::EntryTables;
use ifds_model::Move;
use std::alloc::AllocError;

/// Makes room for moves of a context, which have so many calls and exits, beside what the queue needs for all that is in
/// hand.
pub fn make_room<F: Plain, M: Plain>(
    parts: &mut Parts<F, M>,
    context: u64,
    readies: &[Ready<F, M>],
    kinds: Kinds,
) -> Result<(), AllocError>
    requires fit { AreFit parts.old }
    requires hands { HasRoom parts.old }
    requires known { context < length parts.old.tables.contexts }
    requires joins { (r : _) → Contains readies.now r → JoinsWithin parts.old.tables context kinds.calls kinds.exits r.joins r.step }
    requires calls { kinds.calls ≡ sum_by calls_of readies.now }
    requires exits { kinds.exits ≡ sum_by leaves_of readies.now }
    requires stand { (at : StmtId) × ((r : _) → Contains readies.now r → StandsAt at r.step) }
    ensures same { IsSame parts.old parts.new }
    ensures hands { HasRoom parts.new }
    ensures room { OnOk result (HasRoomFor context parts.new readies.now) }
    ensures queue { OnOk result (deque_len parts.new.queue + sum_by works_of readies.now + in_hand parts.new.flights.items ≤ deque_capacity parts.new.queue) }
{
    let in_flight = out_of(parts.flights.as_slice());
    let works = plus(work_count(readies)?, in_flight as u64)?;
    let edges = edge_count(readies)?;
    parts.queue.reserve(works as usize)?;
    parts.edges.reserve(edges)?;
    parts.marks.reserve(readies.len())?;
    make_entry_room(&mut parts.tables, context, readies, kinds)
}

/// The most edges that the moves hold.
pub fn edge_count<F: Plain, M: Plain>(readies: &[Ready<F, M>]) -> Result<u64, AllocError>
    ensures { IfOk result (λ n. n ≡ sum_by edges_of readies.now) }
{
    let mut count = 0;
    for ready in readies {
        count = plus(count, edges_in(ready)?)?;
    }
    Ok(count)
}

// The most items that the moves queue.
fn work_count<F: Plain, M: Plain>(readies: &[Ready<F, M>]) -> Result<u64, AllocError>
    ensures { IfOk result (λ n. n ≡ sum_by works_of readies.now) }
{
    let mut count = 0;
    for ready in readies {
        count = plus(count, works_in(ready)?)?;
    }
    Ok(count)
}

fn edges_in<F: Plain, M: Plain>(ready: &Ready<F, M>) -> Result<u64, AllocError>
    ensures { IfOk result (λ n. n ≡ edges_of ready.now) }
{
    plus(ready.starts.len() as u64, 1)
}

fn works_in<F: Plain, M: Plain>(ready: &Ready<F, M>) -> Result<u64, AllocError>
    ensures { IfOk result (λ n. n ≡ works_of ready.now) }
{
    plus(edges_in(ready)?, ready.joins)
}

// Makes room for contexts, callers and exits that the moves add. All calls stand at one statement, so each callee gets one
// caller at most.
fn make_entry_room<F: Plain, M: Plain>(
    tables: &mut EntryTables<F>,
    context: u64,
    readies: &[Ready<F, M>],
    kinds: Kinds,
) -> Result<(), AllocError>
    requires known { context < length tables.old.contexts }
    requires distinct { IsDistinct tables.old.contexts }
    ensures same { IsUnchanged tables.old tables.new }
    ensures contexts { OnOk result (kinds.calls ≤ tables.new.spare_contexts) }
    ensures first { OnOk result (0 < tables.new.first_callers) }
    ensures exits { OnOk result (kinds.exits ≤ slice_index tables.new.spare_exits context) }
    ensures callers { OnOk result ((r : _) → Contains readies.now r → HasCallerRoom tables.new context r.step) }
{
    tables.reserve_entries(context, 0, kinds.exits)?;
    for ready in readies {
        make_caller_room(tables, context, ready.step)?;
    }
    tables.reserve_contexts(kinds.calls, 1)
}

// Makes room for a caller of the context that a move calls, where it is known.
fn make_caller_room<F: Plain, M: Plain>(
    tables: &mut EntryTables<F>,
    context: u64,
    step: Move<F, M>,
) -> Result<(), AllocError>
    requires distinct { IsDistinct tables.old.contexts }
    ensures same { IsUnchanged tables.old tables.new }
    ensures kept { KeepsAllRoom tables.old tables.new }
    ensures room { OnOk result (HasCallerRoom tables.new context step) }
{
    let Move::Call {
        context: callee,
        ..
    } = step
    else {
        return Ok(());
    };
    let Some(number) = tables.known(&callee) else {
        return Ok(());
    };
    tables.reserve_entries(number, 1, 0)
}
