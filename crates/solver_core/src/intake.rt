// The moves of an item, taken in one after another. What they need was found and made before (`ready`, `room`), so none
// of this fails. Each kind of move stands below, a commit above.
ghost use Rattle.std.specs.Prelude.{◌≡◌, ◌↔◌, ◌≤◌, ◌<◌, ◌+◌, ◌∷◌, [], ℕ, length, slice_index, Contains, vec_len, vec_capacity};
ghost use Rattle.std.specs.List.{sum_by};
ghost use Rattle.std.specs.VecDeque.{deque_len, deque_capacity};
ghost use Rattle.entry_tables.specs.Tables.{call_site, exits_of};
ghost use Rattle.ifds_model.specs.declared.node.Node.{Node};
ghost use Rattle.ifds_model.specs.declared.node.Move.TheVariants.{Call};
ghost use Rattle.ifds_model.specs.State.{At};
ghost use Rattle.clean_base.specs.declared.ids.StmtId.{StmtId};
ghost use Rattle.solver_core.specs.Room.{Uses, HasPlaceFor, HasStarts, HasRoomFor, IsOf, StandsAt, calls_of, edges_of, leaves_of, works_of};
ghost use Rattle.solver_core.specs.Seen.{AreFit, TakesInParts};

use crate::moves::{take_exit, take_go, take_known, take_mark, take_unknown};
use crate::parts::Parts;
use crate::ready::Ready;
use clean_base::StmtId;
use ifds_model::{Context, Move, Node, Problem};

/// Takes in the moves of a context.
pub fn take_moves<P: Problem>(
    problem: &P,
    parts: &mut Parts<P::Fact, P::Mark>,
    context: u64,
    readies: &[Ready<P::Fact, P::Mark>],
)
    requires fit { AreFit parts.old }
    requires known { context < length parts.old.tables.contexts }
    requires starts { (r : _) → Contains readies.now r → HasStarts (P.machine problem.now) parts.old.tables r.starts.items r.step }
    requires room { HasRoomFor context parts.old readies.now }
    ensures fit { AreFit parts.new }
    ensures taken { TakesInParts (P.machine problem.now) context (IsOf readies.now) parts.old parts.new }
    ensures flights { parts.new.flights ≡ parts.old.flights }
    ensures held { parts.new.edges.held.found ≤ parts.old.edges.held.found + sum_by edges_of readies.now }
    ensures queue_len { deque_len parts.new.queue ≤ deque_len parts.old.queue + sum_by works_of readies.now }
    ensures queue_room { deque_capacity parts.new.queue ≡ deque_capacity parts.old.queue }
{
    for ready in readies {
        take_move(problem, parts, context, ready);
    }
}

// Takes in one move.
fn take_move<P: Problem>(
    problem: &P,
    parts: &mut Parts<P::Fact, P::Mark>,
    context: u64,
    ready: &Ready<P::Fact, P::Mark>,
)
    requires fit { AreFit parts.old }
    requires known { context < length parts.old.tables.contexts }
    requires starts { HasStarts (P.machine problem.now) parts.old.tables ready.now.starts.items ready.now.step }
    requires room { HasRoomFor context parts.old (ready.now ∷ []) }
    ensures fit { AreFit parts.new }
    ensures taken { TakesInParts (P.machine problem.now) context (λ m. m ≡ ready.now.step) parts.old parts.new }
    ensures uses { (at : StmtId) → StandsAt at ready.now.step → Uses (call_site context at) (calls_of ready.now) (calls_of ready.now) (leaves_of ready.now) parts.old.tables parts.new.tables }
    ensures flights { parts.new.flights ≡ parts.old.flights }
    ensures mark_room { vec_len parts.new.marks + vec_capacity parts.old.marks ≤ vec_len parts.old.marks + vec_capacity parts.new.marks + 1 }
    ensures held { parts.new.edges.held.found ≤ parts.old.edges.held.found + edges_of ready.now }
    ensures edge_room { parts.old.edges.spare ≤ parts.new.edges.spare + edges_of ready.now }
    ensures queue_len { deque_len parts.new.queue ≤ deque_len parts.old.queue + works_of ready.now }
    ensures queue_room { deque_capacity parts.new.queue ≡ deque_capacity parts.old.queue }
{
    match ready.step {
        Move::Go { node, fact } => take_go(problem, parts, context, node, fact),
        Move::Call {
            at,
            context: callee,
        } => take_call(problem, parts, context, at, callee, ready.starts.as_slice()),
        Move::Exit { fact } => take_exit(problem, parts, context, fact),
        Move::Mark { mark } => take_mark(problem, parts, context, mark),
    }
}

// Takes in a call. A context that wasn't known when its starts were found may be known by now.
fn take_call<P: Problem>(
    problem: &P,
    parts: &mut Parts<P::Fact, P::Mark>,
    context: u64,
    at: StmtId,
    callee: Context<P::Fact>,
    starts: &[Node],
)
    requires fit { AreFit parts.old }
    requires known { context < length parts.old.tables.contexts }
    requires starts { (Contains parts.old.tables.contexts callee → ⊥) → (n : Node) → Contains starts.now n ↔ (P.machine problem.now).start callee n }
    requires contexts { 0 < parts.old.tables.spare_contexts }
    requires first { 0 < parts.old.tables.first_callers }
    requires callers { (k : ℕ) → At parts.old.tables.contexts k callee → HasPlaceFor (call_site context at) parts.old.tables k }
    requires edges { length starts.now ≤ parts.old.edges.spare }
    requires queue { deque_len parts.old.queue + length starts.now ≤ deque_capacity parts.old.queue }
    requires joins { (k : ℕ) → At parts.old.tables.contexts k callee → deque_len parts.old.queue + length (exits_of parts.old.tables k) ≤ deque_capacity parts.old.queue }
    ensures fit { AreFit parts.new }
    ensures taken { TakesInParts (P.machine problem.now) context (λ m. m ≡ Call at callee) parts.old parts.new }
    ensures uses { Uses (call_site context at) 1 1 0 parts.old.tables parts.new.tables }
    ensures flights { parts.new.flights ≡ parts.old.flights }
    ensures marks { parts.new.marks ≡ parts.old.marks }
    ensures held { parts.new.edges.held.found ≤ parts.old.edges.held.found + length starts.now }
    ensures edge_room { parts.old.edges.spare ≤ parts.new.edges.spare + length starts.now }
    ensures queue_len { (n : ℕ) → length starts.now ≤ n → ((k : ℕ) → At parts.old.tables.contexts k callee → length (exits_of parts.old.tables k) ≤ n) → deque_len parts.new.queue ≤ deque_len parts.old.queue + n }
    ensures queue_room { deque_capacity parts.new.queue ≡ deque_capacity parts.old.queue }
{
    match parts.tables.known(&callee) {
        Some(number) => take_known(problem, parts, context, at, number),
        None => take_unknown(problem, parts, context, at, callee, starts),
    }
}
