// Playing a list of events on a state, in order. An event that can't happen is passed over. The commit of an item
// stands beside, with the driver.
ghost use Rattle.std.specs.Prelude.{◌≡◌, length, OnOk, IfErr};
ghost use Rattle.ifds_model.specs.declared.event.Event.TheVariants.{Take, Commit, Back};
ghost use Rattle.core_driver.specs.Driven.{IsRefused};
ghost use Rattle.core_driver.specs.Played.{Plays, Played, IsStopOf, IsStoppedAt};

use crate::driver::commit_item;
use ifds_model::{Event, Problem};
use solver_core::{CommitStop, State};
use std::alloc::Global;

// A worker with nothing in hand takes the item at a place of the queue.
fn take<P: Problem>(state: &mut State<P>, worker: u32, place: u64)
    ensures problem { state.new.problem ≡ state.old.problem }
    ensures plays { Plays (P.machine state.old.problem) (P.reaches state.old.problem) (Take worker place) state.old.view state.new.view }
{
    if worker >= state.workers() || place >= state.queued() || state.has_flight(worker) {
        return;
    }
    let _taken = state.take(worker, place);
}

// The moves of a worker's item are taken in.
fn commit<P: Problem>(alloc: Global, state: &mut State<P>, worker: u32) -> Result<(), CommitStop>
    ensures problem { state.new.problem ≡ state.old.problem }
    ensures plays { OnOk result (Plays (P.machine state.old.problem) (P.reaches state.old.problem) (Commit worker) state.old.view state.new.view) }
    ensures same { IfErr result (λ e. state.new.view ≡ state.old.view) }
    ensures stopped { IfErr result (λ e. IsStopOf (P.machine state.old.problem) (Commit worker) state.old.view e) }
    ensures refused { IfErr result (λ e. IsRefused (P.machine state.old.problem) state.old.view.max_edges e) }
{
    if worker >= state.workers() {
        return Ok(());
    }
    match state.flight(worker) {
        Some(item) => commit_item(alloc, state, worker, item),
        None => Ok(()),
    }
}

// A worker's item goes back to the queue.
fn give_back<P: Problem>(state: &mut State<P>, worker: u32)
    ensures problem { state.new.problem ≡ state.old.problem }
    ensures plays { Plays (P.machine state.old.problem) (P.reaches state.old.problem) (Back worker) state.old.view state.new.view }
{
    if worker < state.workers() && state.has_flight(worker) {
        state.give_back(worker);
    }
}

// One event happens, or is passed over.
fn play_event<P: Problem>(
    alloc: Global,
    state: &mut State<P>,
    event: Event,
) -> Result<(), CommitStop>
    ensures problem { state.new.problem ≡ state.old.problem }
    ensures plays { OnOk result (Plays (P.machine state.old.problem) (P.reaches state.old.problem) event state.old.view state.new.view) }
    ensures same { IfErr result (λ e. state.new.view ≡ state.old.view) }
    ensures stopped { IfErr result (λ e. IsStopOf (P.machine state.old.problem) event state.old.view e) }
    ensures refused { IfErr result (λ e. IsRefused (P.machine state.old.problem) state.old.view.max_edges e) }
{
    match event {
        Event::Take { worker, place } => take(state, worker, place),
        Event::Commit { worker } => return commit(alloc, state, worker),
        Event::Back { worker } => give_back(state, worker),
        Event::Retire { .. } => {}
        Event::Sweep => {}
    }
    Ok(())
}

/// Plays events in order, and passes over those that can't happen. It stops at the first commit that is refused, and
/// leaves the state as that commit found it.
pub fn play<P: Problem>(
    alloc: Global,
    state: &mut State<P>,
    events: &[Event],
) -> Result<(), CommitStop>
    ensures problem { state.new.problem ≡ state.old.problem }
    ensures played { OnOk result (Played (P.machine state.old.problem) (P.reaches state.old.problem) events.now state.old.view state.new.view) }
    ensures stopped { IfErr result (λ e. IsStoppedAt (P.machine state.old.problem) (P.reaches state.old.problem) events.now state.old.view state.new.view e) }
    ensures refused { IfErr result (λ e. IsRefused (P.machine state.old.problem) state.old.view.max_edges e) }
    ensures limit { state.new.view.max_edges ≡ state.old.view.max_edges }
    ensures workers { length state.new.view.flights ≡ length state.old.view.flights }
{
    for event in events {
        play_event(alloc, state, *event)?;
    }
    Ok(())
}
