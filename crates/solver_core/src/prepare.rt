// What a commit does before anything changes: it makes moves ready, keeps the limit and makes room. Contracts see the
// state as it was, whatever the answer. The state stands above.
ghost use Rattle.std.specs.Prelude.{◌≡◌, ◌≤◌, ◌<◌, ◌+◌, ◌-◌, ◌^◌, length, map, Contains, IfOk, IfErr};
ghost use Rattle.std.specs.List.{sum_by};
ghost use Rattle.std.specs.VecDeque.{deque_len, deque_capacity};
ghost use Rattle.solver_core.specs.Gathered.{KeepsWithin, IsPassed};
ghost use Rattle.solver_core.specs.Hands.{in_hand};
ghost use Rattle.solver_core.specs.Room.{HasStarts, HasRoomFor, IsSame, StandTogether, edges_of, works_of};
ghost use Rattle.solver_core.specs.Seen.{AreFit, HasRoom};

use crate::answer::CommitStop;
use crate::limit::keep_limit;
use crate::parts::Parts;
use crate::ready::{Ready, kinds_of, ready_moves};
use crate::room::{edge_count, make_room};
use ifds_model::{Move, Problem};
use std::alloc::Global;

/// The moves of a context, ready to be taken in, with room for them.
pub fn prepare<P: Problem>(
    alloc: Global,
    problem: &P,
    parts: &mut Parts<P::Fact, P::Mark>,
    context: u64,
    moves: &[Move<P::Fact, P::Mark>],
    max_edges: u64,
) -> Result<Vec<Ready<P::Fact, P::Mark>>, CommitStop>
    requires fit { AreFit parts.old }
    requires hands { HasRoom parts.old }
    requires known { context < length parts.old.tables.contexts }
    requires stand { StandTogether moves.now }
    requires limit { max_edges ≤ 2 ^ 64 - 2 }
    ensures same { IsSame parts.old parts.new }
    ensures hands { HasRoom parts.new }
    ensures steps { IfOk result (λ v. map (λ r. r.step) v.items ≡ moves.now) }
    ensures starts { IfOk result (λ v. (r : _) → Contains v.items r → HasStarts (P.machine problem.now) parts.old.tables r.starts.items r.step) }
    ensures room { IfOk result (λ v. HasRoomFor context parts.new v.items) }
    ensures queue { IfOk result (λ v. deque_len parts.new.queue + sum_by works_of v.items + in_hand parts.new.flights.items ≤ deque_capacity parts.new.queue) }
    ensures within { IfOk result (λ v. KeepsWithin (P.machine problem.now) parts.old context moves.now (sum_by edges_of v.items) max_edges) }
    ensures stopped { IfErr result (λ e. IsPassed (P.machine problem.now) parts.old context moves.now max_edges e) }
{
    let kinds = kinds_of(moves);
    let Ok(readies) = ready_moves(alloc, problem, &parts.tables, context, moves, kinds) else {
        return Err(CommitStop::OutOfMemory);
    };
    let Ok(most) = edge_count(readies.as_slice()) else {
        return Err(CommitStop::OutOfMemory);
    };
    keep_limit(alloc, problem, parts, context, moves, most, max_edges)?;
    let Ok(()) = make_room(parts, context, readies.as_slice(), kinds) else {
        return Err(CommitStop::OutOfMemory);
    };
    Ok(readies)
}
