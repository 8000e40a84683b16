// The solver's state: the events that it goes through, and what it answers once nothing is left to do.
ghost use Rattle.std.specs.Prelude.{◌≡◌, ◌≢◌, ◌⊎◌, ◌↔◌, ◌<◌, ◌≤◌, ◌+◌, ◌-◌, ◌^◌, ℕ, length, IsTrue, false, IfOk, OnOk, IfErr, Some, None};
ghost use Rattle.std.specs.List.Sorted.{IsStrictlySortedBy};
ghost use Rattle.ifds_model.specs.Laws.{IsLawful};
ghost use Rattle.ifds_model.specs.Runs.{IsEdge, IsContext, IsLeak, HasCount, Lists};
ghost use Rattle.ifds_model.specs.Sound.{IsFound, IsDone};
ghost use Rattle.ifds_model.specs.State.{At};
ghost use Rattle.ifds_model.specs.Events.{IsOpened, Takes, Commits, GivesBack};
ghost use Rattle.solver_core.specs.Seen.{IsRight};
ghost use Rattle.solver_core.specs.Answers.{IsOver, IsIdle, IsCommitted, IsStopped};
ghost use Rattle.solver_core.specs.declared.answer.Taken.TheVariants.{Took, Idle, Finished};

use crate::answer::{Answer, CommitStop, Committed, Job, Taken};
use crate::intake::take_moves;
use crate::marks::in_order;
use crate::parts::{Parts, first_parts, first_start, named};
use crate::pending::{
    commit_count, hand_back, hand_of, hand_out, out_of, place_of, queue_work, work_at,
};
use crate::prepare::prepare;
use clean_base::Plain;
use ifds_model::{Item, Outcome, Problem};
use std::alloc::{AllocError, Global};
use std::marker::Model;

/// A solver's state (docs/SOLVER.md, "State"). Contracts see the problem and its `View`.
#[derive(Drop)]
pub struct State<'a, P: Problem> {
    problem: &'a P,
    parts: Parts<P::Fact, P::Mark>,
    commits: u64,
    lag: u64,
    takes: u64,
    period: u64,
    max_edges: u64,
}

impl<'a, P: Problem> Model for State<'a, P> {
    ghost use Rattle.std.specs.Prelude.{◌≤◌, ◌-◌, ◌^◌};
    ghost use Rattle.ifds_model.specs.State.{Seen};
    ghost use Rattle.solver_core.specs.Seen.{view_of_parts, AreNumbered, IsRight};

    ghost Value = { Seen P P.Fact P.Mark };

    ghost view = { λ s. record { problem = s.problem.now; view = view_of_parts (P.machine s.problem.now) s.parts s.commits s.lag s.takes s.period s.max_edges } };

    ghost invariant = { λ s. (1 ≤ s.period) × AreNumbered s.parts × IsRight (P.machine s.problem.now) (P.reaches s.problem.now) (view_of_parts (P.machine s.problem.now) s.parts s.commits s.lag s.takes s.period s.max_edges) × (s.max_edges ≤ 2 ^ 64 - 2) };
}

impl<'a, P: Problem> State<'a, P> {
    /// A state that knows the root alone, with its start to do. A sweep is due at a lag of `period`.
    pub fn open(
        alloc: Global,
        problem: &'a P,
        period: u64,
        max_edges: u64,
        workers: u32,
    ) -> Result<State<'a, P>, AllocError>
        requires period { (1 ≤ period) × (period ≤ 1000000) }
        requires limit { (1 ≤ max_edges) × (max_edges ≤ 2 ^ 64 - 2) }
        requires workers { (1 ≤ workers) × (workers ≤ 64) }
        ensures problem { IfOk result (λ s. s.problem ≡ problem.now) }
        ensures opened { IfOk result (λ s. IsOpened (P.machine problem.now) period max_edges workers s.view) }
        ensures sound { IfOk result (λ s. IsRight (P.machine problem.now) (P.reaches problem.now) s.view) }
    {
        let root = problem.root();
        let node = first_start(alloc, problem, &root)?;
        let parts = first_parts(alloc, root, node, workers)?;
        Ok(State {
            problem,
            parts,
            commits: 0,
            lag: 0,
            takes: 0,
            period,
            max_edges,
        })
    }

    /// The problem that it was opened for.
    pub fn problem(&self) -> &'a P
        ensures { result.now ≡ self.now.problem }
    {
        self.problem
    }

    /// The number of workers that it was opened for.
    pub fn workers(&self) -> u32
        ensures { result ≡ length self.now.view.flights }
    {
        self.parts.flights.len() as u32
    }

    /// Whether a worker has an item in hand.
    pub fn has_flight(&self, w: u32) -> bool
        requires { w < length self.now.view.flights }
        ensures flies { IsTrue result ↔ ((item : _) × At self.now.view.flights w (Some item)) }
        ensures idle { result ≡ false ↔ At self.now.view.flights w None }
    {
        self.parts.flights[w as usize].is_some()
    }

    /// The item that a worker has in hand, if any.
    pub fn flight(&self, w: u32) -> Option<Item<P::Fact>>
        requires { w < length self.now.view.flights }
        ensures flies { At self.now.view.flights w result }
        ensures sound { IsRight (P.machine self.now.problem) (P.reaches self.now.problem) self.now.view }
    {
        match hand_of(self.parts.flights.as_slice(), w) {
            Some(work) => Some(named(&self.parts.tables, work)),
            None => None,
        }
    }

    /// How many items wait.
    pub fn queued(&self) -> u64
        ensures { result ≡ length self.now.view.queue }
    {
        self.parts.queue.len() as u64
    }

    /// How many edges are held.
    pub fn held(&self) -> u64
        ensures { result ≡ length self.now.view.held }
    {
        self.parts.edges.len()
    }

    /// How many edges were committed: those that are held or dropped with nothing left to do.
    pub fn commits(&self) -> u64
        ensures count { result ≡ self.now.view.commits }
        ensures done { HasCount (IsDone (P.machine self.now.problem) self.now.view) result }
    {
        self.commits
    }

    /// How many edges were ever held: those that are held now, and those that were dropped.
    pub fn found(&self) -> u64
        ensures count { result ≡ self.now.view.found }
        ensures found { HasCount (IsFound (P.machine self.now.problem) self.now.view) result }
        ensures sound { IsRight (P.machine self.now.problem) (P.reaches self.now.problem) self.now.view }
    {
        self.parts.edges.found()
    }

    /// A worker takes the item at a place of the queue, counted from the front, or the first, where one waits.
    pub fn take(&mut self, w: u32, place: u64) -> Taken<P>
        requires idle { At self.old.view.flights w None }
        requires place { (place < length self.old.view.queue) ⊎ (place ≡ 0) }
        ensures problem { self.new.problem ≡ self.old.problem }
        ensures took { (job : _) → result ≡ Took job → Takes w place self.old.view self.new.view × At self.old.view.queue place job.item × (job.take ≡ self.new.view.takes) }
        ensures idle { (n : ℕ) → result ≡ Idle n → IsIdle self.old.view n × (self.new.view ≡ self.old.view) }
        ensures finished { result ≡ Finished → IsOver self.old.view × (self.new.view ≡ self.old.view) }
        ensures sound { IsRight (P.machine self.new.problem) (P.reaches self.new.problem) self.new.view }
    {
        let Some(work) = work_at(&mut self.parts.queue, place) else {
            return waiting(out_of(self.parts.flights.as_slice()));
        };
        hand_out(&mut self.parts.flights, w, work);
        self.takes = self.takes.saturating_add(1);
        Taken::Took(Job {
            item: named(&self.parts.tables, work),
            take: self.takes,
        })
    }

    /// Takes in the moves of the item that a worker has in hand. Where the outcome is of another item, the worker's goes
    /// back to the queue instead.
    pub fn commit(&mut self, w: u32, outcome: Outcome<P>) -> Result<Committed, CommitStop>
        requires below { w < length self.old.view.flights }
        requires problem { outcome.problem ≡ self.old.problem }
        ensures problem { self.new.problem ≡ self.old.problem }
        ensures committed { IfOk result (λ c. IsCommitted (P.machine self.old.problem) w outcome.entry.item self.old.view self.new.view c) }
        ensures flies { IfErr result (λ e. At self.old.view.flights w (Some outcome.entry.item)) }
        ensures stopped { IfErr result (λ e. IsStopped (P.machine self.old.problem) outcome.entry.item self.old.view e) }
        ensures same { IfErr result (λ e. self.new.view ≡ self.old.view) }
        ensures sound { IsRight (P.machine self.new.problem) (P.reaches self.new.problem) self.new.view }
        ensures within { self.new.view.commits ≤ self.new.view.max_edges }
    {
        if holds(self.flight(w), outcome.item()) {
            self.take_in(w, outcome)?;
            return Ok(Committed::Done);
        }
        if self.has_flight(w) {
            self.give_back(w);
        }
        Ok(Committed::GoneBack)
    }

    // Takes in the moves of the item that a worker has in hand.
    fn take_in(&mut self, w: u32, outcome: Outcome<P>) -> Result<(), CommitStop>
        requires flies { At self.old.view.flights w (Some outcome.item) }
        requires problem { outcome.problem ≡ self.old.problem }
        ensures problem { self.new.problem ≡ self.old.problem }
        ensures event { OnOk result (Commits (P.machine self.old.problem) w self.old.view self.new.view) }
        ensures stopped { IfErr result (λ e. IsStopped (P.machine self.old.problem) outcome.entry.item self.old.view e) }
        ensures same { IfErr result (λ e. self.new.view ≡ self.old.view) }
        ensures sound { IsRight (P.machine self.new.problem) (P.reaches self.new.problem) self.new.view }
        ensures within { self.new.view.commits ≤ self.new.view.max_edges }
    {
        let Some(work) = hand_of(self.parts.flights.as_slice(), w) else {
            unreachable!();
        };
        lawful(self.problem);
        let alloc = *self.parts.marks.allocator();
        let context = place_of(work);
        let readies = prepare(
            alloc,
            self.problem,
            &mut self.parts,
            context,
            outcome.moves(),
            self.max_edges,
        )?;
        hand_back(&mut self.parts.flights, w);
        take_moves(self.problem, &mut self.parts, context, readies.as_slice());
        self.commits += commit_count(work);
        self.lag = self.lag.saturating_add(1).min(self.period);
        Ok(())
    }

    /// A worker's item goes to the end of the queue.
    pub fn give_back(&mut self, w: u32)
        requires below { w < length self.old.view.flights }
        requires flies { At self.old.view.flights w None → ⊥ }
        ensures problem { self.new.problem ≡ self.old.problem }
        ensures event { GivesBack w self.old.view self.new.view }
        ensures sound { IsRight (P.machine self.new.problem) (P.reaches self.new.problem) self.new.view }
    {
        if let Some(work) = hand_back(&mut self.parts.flights, w) {
            queue_work(&mut self.parts.queue, work);
        }
    }

    /// What was found, where nothing is left to do: the leaks in order, the numbers of edges and of contexts, and as
    /// many commits as edges.
    pub fn into_answer(self) -> Result<Answer<P>, AllocError>
        requires over { IsOver self.view }
        ensures sorted { IfOk result (λ a. IsStrictlySortedBy P.Mark.cmp a.marks.items) }
        ensures leaks { IfOk result (λ a. Lists (IsLeak (P.machine self.entry.problem)) a.marks.items) }
        ensures edges { IfOk result (λ a. HasCount (IsEdge (P.machine self.entry.problem)) a.edges) }
        ensures contexts { IfOk result (λ a. HasCount (IsContext (P.machine self.entry.problem)) a.contexts) }
        ensures commits { IfOk result (λ a. a.commits ≡ a.edges) }
        ensures limit { IfOk result (λ a. a.edges ≤ self.entry.view.max_edges) }
    {
        lawful(self.problem);
        let commits = self.commits;
        let parts = self.parts;
        let contexts = parts.tables.contexts();
        let edges = parts.edges.found();
        let marks = in_order(parts.marks)?;
        Ok(Answer {
            marks,
            edges,
            contexts,
            commits,
        })
    }
}

// Every problem has the laws that the lemmas about states ask for.
fn lawful<P: Problem>(_problem: &P)
    ensures { IsLawful (P.machine _problem.now) (P.method_of _problem.now) (P.reaches _problem.now) }
{}

// Whether a hand holds this item.
fn holds<T: Plain>(hand: Option<T>, item: T) -> bool
    ensures yes { IsTrue result → hand ≡ Some item }
    ensures no { result ≡ false → hand ≢ Some item }
{
    match hand {
        Some(other) => other == item,
        None => false,
    }
}

// What is left to do where nothing waits.
fn waiting<P: Problem>(in_flight: u32) -> Taken<P>
    ensures took { (job : _) → result ≡ Took job → ⊥ }
    ensures idle { (n : ℕ) → result ≡ Idle n → (1 ≤ n) × (n ≡ in_flight) }
    ensures finished { result ≡ Finished → in_flight ≡ 0 }
{
    if in_flight == 0 {
        Taken::Finished
    } else {
        Taken::Idle { in_flight }
    }
}
