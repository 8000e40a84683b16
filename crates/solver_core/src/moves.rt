// One move that is taken in, by numbers. Room is made before, so none of these takes memory. The parts stand below, a
// commit above.
ghost use Rattle.std.specs.Prelude.{◌≡◌, ◌↔◌, ◌≤◌, ◌<◌, ◌+◌, ◌++◌, ◌∷◌, [], length, map, slice_index, Contains, vec_len, vec_capacity};
ghost use Rattle.std.specs.VecDeque.{deque_len, deque_capacity};
ghost use Rattle.ifds_model.specs.declared.node.Node.{Node};
ghost use Rattle.ifds_model.specs.declared.node.Move.TheVariants.{Go, Call, Exit, Mark};
ghost use Rattle.ifds_model.specs.State.{IsDistinct};
ghost use Rattle.entry_tables.specs.Tables.{call_site, callers_of, exits_of};
ghost use Rattle.entry_tables.specs.declared.tables.CallSite.{CallSite};
ghost use Rattle.solver_core.specs.Joins.{exit_join, call_join};
ghost use Rattle.solver_core.specs.Numbers.{context_at};
ghost use Rattle.solver_core.specs.Room.{HasPlaceFor, Uses};
ghost use Rattle.solver_core.specs.Seen.{AreFit, TakesInParts, OpensInParts, GoesTo};

use crate::parts::Parts;
use crate::pending::{Pending, queue_work};
use clean_base::{Plain, StmtId};
use entry_tables::EntryTables;
use ifds_model::{Context, Node, Problem};
use std::collections::VecDeque;

/// Holds and queues an edge of a context, where it is new.
pub fn take_go<P: Problem>(
    problem: &P,
    parts: &mut Parts<P::Fact, P::Mark>,
    context: u64,
    node: Node,
    fact: P::Fact,
)
    requires fit { AreFit parts.old }
    requires known { context < length parts.old.tables.contexts }
    requires edges { 0 < parts.old.edges.spare }
    requires queue { deque_len parts.old.queue < deque_capacity parts.old.queue }
    ensures fit { AreFit parts.new }
    ensures taken { TakesInParts (P.machine problem.now) context (λ m. m ≡ Go node fact) parts.old parts.new }
    ensures tables { parts.new.tables ≡ parts.old.tables }
    ensures flights { parts.new.flights ≡ parts.old.flights }
    ensures marks { parts.new.marks ≡ parts.old.marks }
    ensures held { parts.new.edges.held.found ≤ parts.old.edges.held.found + 1 }
    ensures edge_room { parts.old.edges.spare ≤ parts.new.edges.spare + 1 }
    ensures queue_len { deque_len parts.new.queue ≤ deque_len parts.old.queue + 1 }
    ensures queue_room { deque_capacity parts.new.queue ≡ deque_capacity parts.old.queue }
{
    if parts.edges.add(context, node, fact) {
        queue_work(
            &mut parts.queue,
            Pending::Edge {
                context,
                node,
                fact,
            },
        );
    }
}

/// Adds a mark.
pub fn take_mark<P: Problem>(
    problem: &P,
    parts: &mut Parts<P::Fact, P::Mark>,
    context: u64,
    mark: P::Mark,
)
    requires fit { AreFit parts.old }
    requires room { vec_len parts.old.marks < vec_capacity parts.old.marks }
    ensures fit { AreFit parts.new }
    ensures taken { TakesInParts (P.machine problem.now) context (λ m. m ≡ Mark mark) parts.old parts.new }
    ensures tables { parts.new.tables ≡ parts.old.tables }
    ensures flights { parts.new.flights ≡ parts.old.flights }
    ensures edges { parts.new.edges ≡ parts.old.edges }
    ensures queue { parts.new.queue ≡ parts.old.queue }
    ensures len { vec_len parts.new.marks ≡ vec_len parts.old.marks + 1 }
    ensures room { vec_capacity parts.old.marks ≤ vec_capacity parts.new.marks }
{
    match parts.marks.push(mark) {
        Ok(()) => {}
        Err(_) => unreachable!(),
    }
}

// Queues the joins of an exit with the callers of its context.
fn meet_callers<F: Plain>(
    queue: &mut VecDeque<Pending<F>>,
    tables: &EntryTables<F>,
    callee: u64,
    exit: F,
)
    requires known { callee < length tables.now.contexts }
    requires room { deque_len queue.old + length (callers_of tables.now callee) ≤ deque_capacity queue.old }
    ensures joins { queue.new.items ≡ queue.old.items ++ map (exit_join callee exit) (callers_of tables.now callee) }
    ensures once { IsDistinct (callers_of tables.now callee) }
    ensures len { deque_len queue.new ≡ deque_len queue.old + length (callers_of tables.now callee) }
    ensures room { deque_capacity queue.new ≡ deque_capacity queue.old }
{
    for at in 0..tables.caller_count(callee) {
        let waiting = tables.caller_at(callee, at);
        queue_work(
            queue,
            Pending::Join {
                caller: waiting.caller,
                call: waiting.call,
                callee,
                exit,
            },
        );
    }
}

/// Adds an exit of a context, and queues its joins with the callers that wait, where it is new.
pub fn take_exit<P: Problem>(
    problem: &P,
    parts: &mut Parts<P::Fact, P::Mark>,
    context: u64,
    exit: P::Fact,
)
    requires fit { AreFit parts.old }
    requires known { context < length parts.old.tables.contexts }
    requires exits { 0 < slice_index parts.old.tables.spare_exits context }
    requires queue { deque_len parts.old.queue + length (callers_of parts.old.tables context) ≤ deque_capacity parts.old.queue }
    ensures fit { AreFit parts.new }
    ensures taken { TakesInParts (P.machine problem.now) context (λ m. m ≡ Exit exit) parts.old parts.new }
    ensures uses { (site : CallSite) → Uses site 0 0 1 parts.old.tables parts.new.tables }
    ensures flights { parts.new.flights ≡ parts.old.flights }
    ensures edges { parts.new.edges ≡ parts.old.edges }
    ensures marks { parts.new.marks ≡ parts.old.marks }
    ensures queue_len { deque_len parts.new.queue ≤ deque_len parts.old.queue + length (callers_of parts.old.tables context) }
    ensures queue_room { deque_capacity parts.new.queue ≡ deque_capacity parts.old.queue }
{
    if parts.tables.add_exit(context, exit) {
        meet_callers(&mut parts.queue, &parts.tables, context, exit);
    }
}

// Queues the joins of a caller with the exits of what it calls.
fn meet_exits<F: Plain>(
    queue: &mut VecDeque<Pending<F>>,
    tables: &EntryTables<F>,
    caller: u64,
    call: StmtId,
    callee: u64,
)
    requires known { callee < length tables.now.contexts }
    requires room { deque_len queue.old + length (exits_of tables.now callee) ≤ deque_capacity queue.old }
    ensures joins { queue.new.items ≡ queue.old.items ++ map (call_join caller call callee) (exits_of tables.now callee) }
    ensures once { IsDistinct (exits_of tables.now callee) }
    ensures len { deque_len queue.new ≡ deque_len queue.old + length (exits_of tables.now callee) }
    ensures room { deque_capacity queue.new ≡ deque_capacity queue.old }
{
    for at in 0..tables.exit_count(callee) {
        let exit = tables.exit_at(callee, at);
        queue_work(
            queue,
            Pending::Join {
                caller,
                call,
                callee,
                exit,
            },
        );
    }
}

/// Adds a caller of a known context, and queues its joins with the exits that are known, where it is new.
pub fn take_known<P: Problem>(
    problem: &P,
    parts: &mut Parts<P::Fact, P::Mark>,
    context: u64,
    at: StmtId,
    callee: u64,
)
    requires fit { AreFit parts.old }
    requires known { context < length parts.old.tables.contexts }
    requires there { callee < length parts.old.tables.contexts }
    requires callers { HasPlaceFor (call_site context at) parts.old.tables callee }
    requires queue { deque_len parts.old.queue + length (exits_of parts.old.tables callee) ≤ deque_capacity parts.old.queue }
    ensures fit { AreFit parts.new }
    ensures taken { TakesInParts (P.machine problem.now) context (λ m. m ≡ Call at (context_at (P.machine problem.now).root parts.old.tables.contexts callee)) parts.old parts.new }
    ensures uses { Uses (call_site context at) 0 1 0 parts.old.tables parts.new.tables }
    ensures flights { parts.new.flights ≡ parts.old.flights }
    ensures edges { parts.new.edges ≡ parts.old.edges }
    ensures marks { parts.new.marks ≡ parts.old.marks }
    ensures queue_len { deque_len parts.new.queue ≤ deque_len parts.old.queue + length (exits_of parts.old.tables callee) }
    ensures queue_room { deque_capacity parts.new.queue ≡ deque_capacity parts.old.queue }
{
    if parts.tables.add_caller(callee, context, at) {
        meet_exits(&mut parts.queue, &parts.tables, context, at, callee);
    }
}

/// Gives an unknown context the next number.
pub fn open_context<P: Problem>(
    problem: &P,
    parts: &mut Parts<P::Fact, P::Mark>,
    context: Context<P::Fact>,
) -> u64
    requires fit { AreFit parts.old }
    requires unknown { ¬ Contains parts.old.tables.contexts context }
    requires room { 0 < parts.old.tables.spare_contexts }
    ensures fit { AreFit parts.new }
    ensures number { result ≡ length parts.old.tables.contexts }
    ensures contexts { parts.new.tables.contexts ≡ parts.old.tables.contexts ++ context ∷ [] }
    ensures exits { parts.new.tables.exits ≡ parts.old.tables.exits ++ [] ∷ [] }
    ensures opened { OpensInParts (P.machine problem.now) context parts.old parts.new }
    ensures ready { parts.old.tables.first_callers ≤ slice_index parts.new.tables.spare_callers result }
    ensures uses { (site : CallSite) → Uses site 1 0 0 parts.old.tables parts.new.tables }
    ensures rest { (parts.new.edges ≡ parts.old.edges) × (parts.new.queue ≡ parts.old.queue) × (parts.new.flights ≡ parts.old.flights) × (parts.new.marks ≡ parts.old.marks) }
{
    parts.tables.open_context(context)
}

// Takes in a fact that goes to each of these nodes.
fn take_starts<P: Problem>(
    problem: &P,
    parts: &mut Parts<P::Fact, P::Mark>,
    context: u64,
    starts: &[Node],
    fact: P::Fact,
)
    requires fit { AreFit parts.old }
    requires known { context < length parts.old.tables.contexts }
    requires edges { length starts.now ≤ parts.old.edges.spare }
    requires queue { deque_len parts.old.queue + length starts.now ≤ deque_capacity parts.old.queue }
    ensures fit { AreFit parts.new }
    ensures taken { TakesInParts (P.machine problem.now) context (GoesTo starts.now fact) parts.old parts.new }
    ensures tables { parts.new.tables ≡ parts.old.tables }
    ensures flights { parts.new.flights ≡ parts.old.flights }
    ensures marks { parts.new.marks ≡ parts.old.marks }
    ensures held { parts.new.edges.held.found ≤ parts.old.edges.held.found + length starts.now }
    ensures edge_room { parts.old.edges.spare ≤ parts.new.edges.spare + length starts.now }
    ensures queue_len { deque_len parts.new.queue ≤ deque_len parts.old.queue + length starts.now }
    ensures queue_room { deque_capacity parts.new.queue ≡ deque_capacity parts.old.queue }
{
    for node in starts {
        take_go(problem, parts, context, *node, fact);
    }
}

/// Takes in a call of a context that is not known yet, with its starts.
pub fn take_unknown<P: Problem>(
    problem: &P,
    parts: &mut Parts<P::Fact, P::Mark>,
    context: u64,
    at: StmtId,
    callee: Context<P::Fact>,
    starts: &[Node],
)
    requires fit { AreFit parts.old }
    requires known { context < length parts.old.tables.contexts }
    requires unknown { ¬ Contains parts.old.tables.contexts callee }
    requires starts { (n : Node) → Contains starts.now n ↔ (P.machine problem.now).start callee n }
    requires contexts { 0 < parts.old.tables.spare_contexts }
    requires callers { 0 < parts.old.tables.first_callers }
    requires edges { length starts.now ≤ parts.old.edges.spare }
    requires queue { deque_len parts.old.queue + length starts.now ≤ deque_capacity parts.old.queue }
    ensures fit { AreFit parts.new }
    ensures taken { TakesInParts (P.machine problem.now) context (λ m. m ≡ Call at callee) parts.old parts.new }
    ensures uses { Uses (call_site context at) 1 1 0 parts.old.tables parts.new.tables }
    ensures flights { parts.new.flights ≡ parts.old.flights }
    ensures marks { parts.new.marks ≡ parts.old.marks }
    ensures held { parts.new.edges.held.found ≤ parts.old.edges.held.found + length starts.now }
    ensures edge_room { parts.old.edges.spare ≤ parts.new.edges.spare + length starts.now }
    ensures queue_len { deque_len parts.new.queue ≤ deque_len parts.old.queue + length starts.now }
    ensures queue_room { deque_capacity parts.new.queue ≡ deque_capacity parts.old.queue }
{
    let number = open_context(problem, parts, callee);
    take_starts(problem, parts, number, starts, callee.fact);
    take_known(problem, parts, context, at, number);
}
