// Working a solver's state off: items in hand go back, then one worker takes the first item and commits its moves, until
// nothing is left. It ends: an edge's commit raises the number of commits, which the limit bounds, and a join's commit
// queues no join.
ghost use Rattle.std.specs.Prelude.{◌≡◌, ◌≤◌, length, false, IfOk, OnOk, IfErr, Some};
ghost use Rattle.std.specs.List.Sorted.{IsStrictlySortedBy};
ghost use Rattle.ifds_model.specs.Runs.{IsEdge, IsContext, IsLeak, HasCount, Lists};
ghost use Rattle.ifds_model.specs.State.{At};
ghost use Rattle.ifds_model.specs.Events.{Commits};
ghost use Rattle.solver_core.specs.Seen.{IsRight};
ghost use Rattle.solver_core.specs.Answers.{IsOver, IsStopped};
ghost use Rattle.core_driver.specs.Driven.{IsRefused, IsReady, GoesOn, IsStep, HasGoneOn, kind_of, item_taken};

use ifds_model::{Item, Problem, work};
use solver_core::{Answer, CommitStop, Committed, State, Taken};
use std::alloc::Global;

/// What one step did.
pub enum Stepped {
    /// It committed an edge.
    Edge,
    /// It committed a join.
    Join,
    /// It found nothing to do.
    Over,
}

// The step that an item makes.
fn kind<F: Copy>(item: Item<F>) -> Stepped
    ensures { result ≡ kind_of item }
{
    match item {
        Item::Edge { .. } => Stepped::Edge,
        Item::Join { .. } => Stepped::Join,
    }
}

// The item that was taken, if one was.
fn taken_item<P: Problem>(taken: &Taken<P>) -> Option<Item<P::Fact>>
    ensures { result ≡ item_taken taken.now }
{
    match taken {
        Taken::Took(job) => Some(job.item),
        Taken::Idle { .. } => None,
        Taken::Finished => None,
    }
}

/// Commits the moves of the item that a worker has in hand.
pub fn commit_item<P: Problem>(
    alloc: Global,
    state: &mut State<P>,
    worker: u32,
    item: Item<P::Fact>,
) -> Result<(), CommitStop>
    requires flies { At state.old.view.flights worker (Some item) }
    requires sound { IsRight (P.machine state.old.problem) (P.reaches state.old.problem) state.old.view }
    ensures problem { state.new.problem ≡ state.old.problem }
    ensures event { OnOk result (Commits (P.machine state.old.problem) worker state.old.view state.new.view) }
    ensures within { OnOk result (state.new.view.commits ≤ state.new.view.max_edges) }
    ensures same { IfErr result (λ e. state.new.view ≡ state.old.view) }
    ensures stopped { IfErr result (λ e. IsStopped (P.machine state.old.problem) item state.old.view e) }
    ensures refused { IfErr result (λ e. IsRefused (P.machine state.old.problem) state.old.view.max_edges e) }
{
    let Ok(outcome) = work(alloc, state.problem(), item) else {
        return Err(CommitStop::OutOfMemory);
    };
    match state.commit(worker, outcome)? {
        Committed::Done => Ok(()),
        Committed::GoneBack => unreachable!(),
    }
}

// Commits the moves of the item that the first worker has in hand.
fn carry_out<P: Problem>(
    alloc: Global,
    state: &mut State<P>,
    item: Item<P::Fact>,
) -> Result<Stepped, CommitStop>
    requires flies { At state.old.view.flights 0 (Some item) }
    requires sound { IsRight (P.machine state.old.problem) (P.reaches state.old.problem) state.old.view }
    ensures problem { state.new.problem ≡ state.old.problem }
    ensures event { OnOk result (Commits (P.machine state.old.problem) 0 state.old.view state.new.view) }
    ensures within { OnOk result (state.new.view.commits ≤ state.new.view.max_edges) }
    ensures kind { IfOk result (λ s. s ≡ kind_of item) }
    ensures refused { IfErr result (λ e. IsRefused (P.machine state.old.problem) state.old.view.max_edges e) }
{
    commit_item(alloc, state, 0, item)?;
    Ok(kind(item))
}

// Takes the first item and commits its moves, where one waits.
fn step<P: Problem>(alloc: Global, state: &mut State<P>) -> Result<Stepped, CommitStop>
    requires { IsReady state.old.view }
    ensures problem { state.new.problem ≡ state.old.problem }
    ensures ready { OnOk result (GoesOn state.old.view state.new.view) }
    ensures step { IfOk result (λ s. IsStep s state.old.view state.new.view) }
    ensures refused { IfErr result (λ e. IsRefused (P.machine state.old.problem) state.old.view.max_edges e) }
{
    let taken = state.take(0, 0);
    match taken_item(&taken) {
        Some(item) => carry_out(alloc, state, item),
        None => Ok(Stepped::Over),
    }
}

// Commits joins until an edge is committed, and tells whether one was: else nothing is left to do.
fn next_edge<P: Problem>(alloc: Global, state: &mut State<P>) -> Result<bool, CommitStop>
    requires { IsReady state.old.view }
    ensures problem { state.new.problem ≡ state.old.problem }
    ensures ready { OnOk result (GoesOn state.old.view state.new.view) }
    ensures edge { IfOk result (λ more. HasGoneOn more state.old.view state.new.view) }
    ensures refused { IfErr result (λ e. IsRefused (P.machine state.old.problem) state.old.view.max_edges e) }
{
    loop {
        match step(alloc, state)? {
            Stepped::Edge => return Ok(true),
            Stepped::Join => {}
            Stepped::Over => return Ok(false),
        }
    }
}

// Takes and commits until nothing is left to do.
fn work_off<P: Problem>(alloc: Global, state: &mut State<P>) -> Result<(), CommitStop>
    requires { IsReady state.old.view }
    ensures problem { state.new.problem ≡ state.old.problem }
    ensures over { OnOk result (IsOver state.new.view) }
    ensures limit { OnOk result (state.new.view.max_edges ≡ state.old.view.max_edges) }
    ensures refused { IfErr result (λ e. IsRefused (P.machine state.old.problem) state.old.view.max_edges e) }
{
    while next_edge(alloc, state)? {}
    Ok(())
}

// All items in hand go back to the queue.
fn give_all_back<P: Problem>(state: &mut State<P>)
    requires { 1 ≤ length state.old.view.flights }
    ensures problem { state.new.problem ≡ state.old.problem }
    ensures ready { GoesOn state.old.view state.new.view }
{
    let workers = state.workers();
    for w in 0..workers {
        if state.has_flight(w) {
            state.give_back(w);
        }
    }
}

/// Works a state off to its answer: the leaks in order, and the numbers of path edges and of contexts. It is refused
/// exactly where the machine has more path edges than the state's limit, or for want of memory.
pub fn finish<P: Problem>(alloc: Global, state: State<P>) -> Result<Answer<P>, CommitStop>
    requires workers { 1 ≤ length state.view.flights }
    ensures sorted { IfOk result (λ a. IsStrictlySortedBy P.Mark.cmp a.marks.items) }
    ensures leaks { IfOk result (λ a. Lists (IsLeak (P.machine state.entry.problem)) a.marks.items) }
    ensures edges { IfOk result (λ a. HasCount (IsEdge (P.machine state.entry.problem)) a.edges) }
    ensures contexts { IfOk result (λ a. HasCount (IsContext (P.machine state.entry.problem)) a.contexts) }
    ensures commits { IfOk result (λ a. a.commits ≡ a.edges) }
    ensures limit { IfOk result (λ a. a.edges ≤ state.entry.view.max_edges) }
    ensures refused { IfErr result (λ e. IsRefused (P.machine state.entry.problem) state.entry.view.max_edges e) }
{
    let mut state = state;
    give_all_back(&mut state);
    work_off(alloc, &mut state)?;
    match state.into_answer() {
        Ok(answer) => Ok(answer),
        Err(_) => Err(CommitStop::OutOfMemory),
    }
}
