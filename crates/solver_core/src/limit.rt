// How many edges moves would add, counted before anything changes: so a commit that is refused for the limit leaves
// the state as it was. The parts stand below, a commit above.
ghost use Rattle.std.specs.Prelude.{◌≡◌, ◌≤◌, ◌<◌, ◌+◌, ◌-◌, ◌^◌, [], ℕ, IsTrue, false, length, Contains, IfOk, OnOk, IfErr};
ghost use Rattle.ifds_model.specs.declared.node.Move.TheVariants.{Go, Call};
ghost use Rattle.ifds_model.specs.Runs.{opened, HasCount};
ghost use Rattle.solver_core.specs.Gathered.{Gathers, IsOfEach, IsNew, IsNewTo, KeepsWithin, IsPassed};
ghost use Rattle.solver_core.specs.Numbers.{context_at};
ghost use Rattle.solver_core.specs.Seen.{AreFit, view_of_parts};

use crate::answer::CommitStop;
use crate::parts::Parts;
use crate::sets::add_once;
use clean_base::{Plain, StmtId};
use ifds_model::{Context, Frame, Move, Node, Problem};
use indexmap::IndexSet;
use std::alloc::{AllocError, Global};

/// The number of new edges to which moves in a context lead: those that they go to, and the starts of contexts that
/// they call and that aren't known, each counted once and only where it isn't held.
pub fn new_edges<P: Problem>(
    alloc: Global,
    problem: &P,
    parts: &Parts<P::Fact, P::Mark>,
    context: u64,
    moves: &[Move<P::Fact, P::Mark>],
) -> Result<u64, AllocError>
    requires fit { AreFit parts.now }
    requires known { context < length parts.now.tables.contexts }
    ensures { IfOk result (λ k. (commits lag takes period max_edges : ℕ) → HasCount (IsNew (P.machine problem.now) (context_at (P.machine problem.now).root parts.now.tables.contexts context) (λ m. Contains moves.now m) (view_of_parts (P.machine problem.now) parts.now commits lag takes period max_edges)) k) }
{
    let mut frames = IndexSet::new(alloc);
    gather_moves(alloc, problem, parts, context, moves, &mut frames)?;
    Ok(frames.len() as u64)
}

/// Whether so many new edges pass the limit.
pub fn passes_limit(found: u64, more: u64, max_edges: u64) -> bool
    ensures yes { IsTrue result → max_edges < found + more }
    ensures no { result ≡ false → found + more ≤ max_edges }
{
    match found.checked_add(more) {
        Some(sum) => max_edges < sum,
        None => true,
    }
}

/// Refuses moves whose new edges pass the limit. They are counted only where the most that there may be passes it.
pub fn keep_limit<P: Problem>(
    alloc: Global,
    problem: &P,
    parts: &Parts<P::Fact, P::Mark>,
    context: u64,
    moves: &[Move<P::Fact, P::Mark>],
    most: u64,
    max_edges: u64,
) -> Result<(), CommitStop>
    requires fit { AreFit parts.now }
    requires known { context < length parts.now.tables.contexts }
    requires limit { max_edges ≤ 2 ^ 64 - 2 }
    ensures within { OnOk result (KeepsWithin (P.machine problem.now) parts.now context moves.now most max_edges) }
    ensures stopped { IfErr result (λ e. IsPassed (P.machine problem.now) parts.now context moves.now max_edges e) }
{
    let found = parts.edges.found();
    if !passes_limit(found, most, max_edges) {
        return Ok(());
    }
    let Ok(more) = new_edges(alloc, problem, parts, context, moves) else {
        return Err(CommitStop::OutOfMemory);
    };
    if passes_limit(found, more, max_edges) {
        return Err(CommitStop::EdgeLimit {
            found: max_edges + 1,
        });
    }
    Ok(())
}

// Gathers the new edges of moves.
fn gather_moves<P: Problem>(
    alloc: Global,
    problem: &P,
    parts: &Parts<P::Fact, P::Mark>,
    context: u64,
    moves: &[Move<P::Fact, P::Mark>],
    frames: &mut IndexSet<Frame<P::Fact>>,
) -> Result<(), AllocError>
    requires fit { AreFit parts.now }
    requires known { context < length parts.now.tables.contexts }
    ensures { OnOk result (Gathers (IsOfEach (λ step. IsNewTo (P.machine problem.now) parts.now context (λ m. m ≡ step)) moves.now) frames.old.keys frames.new.keys) }
{
    for step in moves {
        gather_move(alloc, problem, parts, context, *step, frames)?;
    }
    Ok(())
}

// Gathers the new edges of one move.
fn gather_move<P: Problem>(
    alloc: Global,
    problem: &P,
    parts: &Parts<P::Fact, P::Mark>,
    context: u64,
    step: Move<P::Fact, P::Mark>,
    frames: &mut IndexSet<Frame<P::Fact>>,
) -> Result<(), AllocError>
    requires fit { AreFit parts.now }
    requires known { context < length parts.now.tables.contexts }
    ensures { OnOk result (Gathers (IsNewTo (P.machine problem.now) parts.now context (λ m. m ≡ step)) frames.old.keys frames.new.keys) }
{
    match step {
        Move::Go { node, fact } => gather_go(problem, parts, context, node, fact, frames),
        Move::Call {
            at,
            context: callee,
        } => gather_call(alloc, problem, parts, context, at, callee, frames),
        Move::Exit { .. } => Ok(()),
        Move::Mark { .. } => Ok(()),
    }
}

// Gathers the edge that a context goes on to, where it is new.
fn gather_go<P: Problem>(
    problem: &P,
    parts: &Parts<P::Fact, P::Mark>,
    context: u64,
    node: Node,
    fact: P::Fact,
    frames: &mut IndexSet<Frame<P::Fact>>,
) -> Result<(), AllocError>
    requires fit { AreFit parts.now }
    requires known { context < length parts.now.tables.contexts }
    ensures { OnOk result (Gathers (IsNewTo (P.machine problem.now) parts.now context (λ m. m ≡ Go node fact)) frames.old.keys frames.new.keys) }
{
    if parts.edges.has(context, node, fact) {
        return Ok(());
    }
    let frame = Frame {
        context: parts.tables.context(context),
        node,
        fact,
    };
    gather(frames, frame)
}

// Gathers the starts of a context that is called, where it isn't known.
fn gather_call<P: Problem>(
    alloc: Global,
    problem: &P,
    parts: &Parts<P::Fact, P::Mark>,
    context: u64,
    at: StmtId,
    callee: Context<P::Fact>,
    frames: &mut IndexSet<Frame<P::Fact>>,
) -> Result<(), AllocError>
    requires fit { AreFit parts.now }
    ensures { OnOk result (Gathers (IsNewTo (P.machine problem.now) parts.now context (λ m. m ≡ Call at callee)) frames.old.keys frames.new.keys) }
{
    let Some(_) = parts.tables.known(&callee) else {
        let mut starts = Vec::new(alloc);
        problem.starts(&callee, &mut starts)?;
        return gather_starts(callee, starts.as_slice(), frames);
    };
    Ok(())
}

// Gathers the edges at which a context starts.
fn gather_starts<F: Plain>(
    callee: Context<F>,
    starts: &[Node],
    frames: &mut IndexSet<Frame<F>>,
) -> Result<(), AllocError>
    ensures { OnOk result (Gathers (IsOfEach (λ n a. a ≡ opened callee n) starts.now) frames.old.keys frames.new.keys) }
{
    for node in starts {
        let frame = Frame {
            context: callee,
            node: *node,
            fact: callee.fact,
        };
        gather(frames, frame)?;
    }
    Ok(())
}

// Gathers one item.
fn gather<T: Plain>(items: &mut IndexSet<T>, item: T) -> Result<(), AllocError>
    ensures { OnOk result (Gathers (λ x. x ≡ item) items.old.keys items.new.keys) }
{
    items.reserve(1)?;
    add_once(items, item);
    Ok(())
}
