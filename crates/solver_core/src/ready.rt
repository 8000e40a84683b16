// Moves that are made ready to be taken in: the starts of an unknown callee and the number of joins are found before
// anything changes. `room` beside makes room for them; taking them in stands above.
ghost use Rattle.std.specs.Prelude.{◌≡◌, ◌↔◌, ◌≤◌, ◌<◌, ◌+◌, [], ℕ, length, map, Contains, IfOk};
ghost use Rattle.entry_tables.specs.Tables.{callers_of, exits_of};
ghost use Rattle.ifds_model.specs.State.{At, IsDistinct};
ghost use Rattle.ifds_model.specs.declared.node.Node.{Node};
ghost use Rattle.ifds_model.specs.declared.node.Move.TheVariants.{Call};
ghost use Rattle.std.specs.List.{sum_by};
ghost use Rattle.solver_core.specs.Room.{JoinsWithin, HasStarts, call_count, exit_count};

use clean_base::{Plain, StmtId};
use entry_tables::EntryTables;
use ifds_model::{Context, Move, Node, Problem};
use std::alloc::{AllocError, Global};

/// A move, with the starts of the context that it calls where that isn't known, and the most joins that it may queue.
#[derive(Drop)]
pub struct Ready<F: Plain, M: Plain> {
    pub step: Move<F, M>,
    pub starts: Vec<Node>,
    pub joins: u64,
}

/// How many calls and exits moves have.
#[derive(Clone, Copy, Debug)]
pub struct Kinds {
    pub calls: u64,
    pub exits: u64,
}

/// Counts the calls and the exits of moves.
pub fn kinds_of<F: Plain, M: Plain>(moves: &[Move<F, M>]) -> Kinds
    ensures calls { result.calls ≡ sum_by call_count moves.now }
    ensures exits { result.exits ≡ sum_by exit_count moves.now }
{
    let mut calls = 0;
    let mut exits = 0;
    for step in moves {
        match step {
            Move::Go { .. } => {}
            Move::Call { .. } => calls += 1,
            Move::Exit { .. } => exits += 1,
            Move::Mark { .. } => {}
        }
    }
    Kinds { calls, exits }
}

/// Makes the moves of a context ready, which have so many calls and exits.
pub fn ready_moves<P: Problem>(
    alloc: Global,
    problem: &P,
    tables: &EntryTables<P::Fact>,
    context: u64,
    moves: &[Move<P::Fact, P::Mark>],
    kinds: Kinds,
) -> Result<Vec<Ready<P::Fact, P::Mark>>, AllocError>
    requires known { context < length tables.now.contexts }
    requires distinct { IsDistinct tables.now.contexts }
    ensures steps { IfOk result (λ v. map (λ r. r.step) v.items ≡ moves.now) }
    ensures joins { IfOk result (λ v. (r : _) → Contains v.items r → JoinsWithin tables.now context kinds.calls kinds.exits r.joins r.step) }
    ensures starts { IfOk result (λ v. (r : _) → Contains v.items r → HasStarts (P.machine problem.now) tables.now r.starts.items r.step) }
{
    let mut readies = Vec::new(alloc);
    for step in moves {
        readies.push(ready_move(alloc, problem, tables, context, *step, kinds)?)?;
    }
    Ok(readies)
}

// Makes a move ready, among so many calls and exits.
fn ready_move<P: Problem>(
    alloc: Global,
    problem: &P,
    tables: &EntryTables<P::Fact>,
    context: u64,
    step: Move<P::Fact, P::Mark>,
    kinds: Kinds,
) -> Result<Ready<P::Fact, P::Mark>, AllocError>
    requires known { context < length tables.now.contexts }
    requires distinct { IsDistinct tables.now.contexts }
    ensures step { IfOk result (λ r. r.step ≡ step) }
    ensures joins { IfOk result (λ r. JoinsWithin tables.now context kinds.calls kinds.exits r.joins r.step) }
    ensures starts { IfOk result (λ r. HasStarts (P.machine problem.now) tables.now r.starts.items r.step) }
{
    match step {
        Move::Go { .. } => Ok(bare(alloc, step, 0)),
        Move::Call {
            at,
            context: callee,
        } => ready_call(alloc, problem, tables, at, callee, kinds.exits),
        Move::Exit { .. } => ready_exit(alloc, tables, context, step, kinds.calls),
        Move::Mark { .. } => Ok(bare(alloc, step, 0)),
    }
}

// Makes an exit ready, among so many calls.
fn ready_exit<F: Plain, M: Plain>(
    alloc: Global,
    tables: &EntryTables<F>,
    context: u64,
    step: Move<F, M>,
    calls: u64,
) -> Result<Ready<F, M>, AllocError>
    requires known { context < length tables.now.contexts }
    ensures step { IfOk result (λ r. r.step ≡ step) }
    ensures joins { IfOk result (λ r. length (callers_of tables.now context) + calls ≤ r.joins) }
{
    let joins = plus(tables.caller_count(context), calls)?;
    Ok(bare(alloc, step, joins))
}

// Makes a call ready, among so many exits.
fn ready_call<P: Problem>(
    alloc: Global,
    problem: &P,
    tables: &EntryTables<P::Fact>,
    at: StmtId,
    callee: Context<P::Fact>,
    exits: u64,
) -> Result<Ready<P::Fact, P::Mark>, AllocError>
    requires distinct { IsDistinct tables.now.contexts }
    ensures step { IfOk result (λ r. r.step ≡ Call at callee) }
    ensures least { IfOk result (λ r. exits ≤ r.joins) }
    ensures joins { IfOk result (λ r. (k : ℕ) → At tables.now.contexts k callee → length (exits_of tables.now k) + exits ≤ r.joins) }
    ensures starts { IfOk result (λ r. (Contains tables.now.contexts callee → ⊥) → (n : Node) → Contains r.starts.items n ↔ (P.machine problem.now).start callee n) }
{
    let step = Move::Call {
        at,
        context: callee,
    };
    let Some(number) = tables.known(&callee) else {
        let mut starts = Vec::new(alloc);
        problem.starts(&callee, &mut starts)?;
        return Ok(Ready {
            step,
            starts,
            joins: exits,
        });
    };
    let joins = plus(tables.exit_count(number), exits)?;
    Ok(bare(alloc, step, joins))
}

// A move that opens no context.
fn bare<F: Plain, M: Plain>(alloc: Global, step: Move<F, M>, joins: u64) -> Ready<F, M>
    ensures step { result.step ≡ step }
    ensures starts { result.starts.items ≡ [] }
    ensures joins { result.joins ≡ joins }
{
    Ready {
        step,
        starts: Vec::new(alloc),
        joins,
    }
}

/// A sum; where it passes 64 bits there is no memory for so many.
pub fn plus(a: u64, b: u64) -> Result<u64, AllocError>
    ensures { IfOk result (λ sum. sum ≡ a + b) }
{
    match a.checked_add(b) {
        Some(sum) => Ok(sum),
        None => Err(AllocError),
    }
}
