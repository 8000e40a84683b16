// What is still to be done, by the numbers of contexts: the queue of works, and the workers' hands. The state's parts
// stand above.
ghost use Rattle.std.specs.Prelude.{◌≡◌, ◌≤◌, ◌<◌, ◌+◌, ◌^◌, ◌++◌, ◌∷◌, [], List, length, remove, slice_set, IfSome, IfNone, OnSome, Some, None};
ghost use Rattle.std.specs.VecDeque.{deque_len, deque_capacity};
ghost use Rattle.ifds_model.specs.declared.node.Context.{Context};
ghost use Rattle.ifds_model.specs.Events.{commits_of};
ghost use Rattle.ifds_model.specs.State.{At};
ghost use Rattle.solver_core.specs.Hands.{in_hand};
ghost use Rattle.solver_core.specs.Numbers.{item_of, place};

use clean_base::StmtId;
use ifds_model::Node;
use std::collections::VecDeque;

/// An item of the queue: the moves of an edge, or the return of an exit to a caller.
#[derive(Clone, Copy, Debug)]
pub enum Pending<F> {
    Edge {
        context: u64,
        node: Node,
        fact: F,
    },
    Join {
        caller: u64,
        call: StmtId,
        callee: u64,
        exit: F,
    },
}

/// Takes the work at a place of the queue out of it, counted from the front.
pub fn work_at<F: Copy>(queue: &mut VecDeque<Pending<F>>, place: u64) -> Option<Pending<F>>
    ensures there { IfSome result (λ v. At queue.old.items place v) }
    ensures left { OnSome result (queue.new.items ≡ remove queue.old.items place) }
    ensures less { IfSome result (λ v. deque_len queue.new + 1 ≡ deque_len queue.old) }
    ensures beyond { IfNone result (length queue.old.items ≤ place) }
    ensures stays { IfNone result (queue.new.items ≡ queue.old.items) }
    ensures no_less { IfNone result (deque_len queue.new ≡ deque_len queue.old) }
    ensures room { deque_capacity queue.new ≡ deque_capacity queue.old }
{
    queue.remove(place as usize)
}

/// Queues a work at the end.
pub fn queue_work<F: Copy>(queue: &mut VecDeque<Pending<F>>, work: Pending<F>)
    requires { deque_len queue.old < deque_capacity queue.old }
    ensures items { queue.new.items ≡ queue.old.items ++ work ∷ [] }
    ensures len { deque_len queue.new ≡ deque_len queue.old + 1 }
    ensures room { deque_capacity queue.new ≡ deque_capacity queue.old }
{
    match queue.push_back(work) {
        Ok(()) => {}
        Err(_) => unreachable!(),
    }
}

/// Gives an idle worker a work.
pub fn hand_out<F: Copy>(flights: &mut Vec<Option<Pending<F>>>, w: u32, work: Pending<F>)
    requires { At flights.old.items w None }
    ensures items { flights.new.items ≡ slice_set flights.old.items w (Some work) }
    ensures out { in_hand flights.new.items ≡ in_hand flights.old.items + 1 }
{
    flights[w as usize] = Some(work);
}

/// Takes the work out of a worker's hand.
pub fn hand_back<F: Copy>(flights: &mut Vec<Option<Pending<F>>>, w: u32) -> Option<Pending<F>>
    requires { w < length flights.old.items }
    ensures flew { IfSome result (λ v. At flights.old.items w (Some v)) }
    ensures emptied { IfSome result (λ v. flights.new.items ≡ slice_set flights.old.items w None) }
    ensures idle { IfNone result (At flights.old.items w None) }
    ensures stays { IfNone result (flights.new.items ≡ flights.old.items) }
    ensures less { IfSome result (λ v. in_hand flights.new.items + 1 ≡ in_hand flights.old.items) }
{
    match flights[w as usize] {
        Some(work) => {
            flights[w as usize] = None;
            Some(work)
        }
        None => None,
    }
}

/// What a worker has in hand.
pub fn hand_of<F: Copy>(flights: &[Option<Pending<F>>], w: u32) -> Option<Pending<F>>
    requires { w < length flights.now }
    ensures { At flights.now w result }
{
    flights[w as usize]
}

/// The context in which a work is done.
pub fn place_of<F: Copy>(work: Pending<F>) -> u64
    ensures { result ≡ place work }
{
    match work {
        Pending::Edge { context, .. } => context,
        Pending::Join { caller, .. } => caller,
    }
}

/// How many commits of edges a work's commit counts as.
pub fn commit_count<F: Copy>(work: Pending<F>) -> u64
    ensures count { (root : Context F) (contexts : List (Context F)) → result ≡ commits_of (item_of root contexts work) }
    ensures few { result ≤ 1 }
{
    match work {
        Pending::Edge { .. } => 1,
        Pending::Join { .. } => 0,
    }
}

/// How many workers have something in hand.
pub fn out_of<F: Copy>(flights: &[Option<Pending<F>>]) -> u32
    requires { length flights.now < 2 ^ 32 }
    ensures { result ≡ in_hand flights.now }
{
    let mut out = 0;
    for flight in flights {
        out += one_of(flight);
    }
    out
}

fn one_of<F: Copy>(flight: &Option<Pending<F>>) -> u32
    ensures count { result ≡ in_hand (flight.now ∷ []) }
    ensures few { result ≤ 1 }
{
    match flight {
        Some(_) => 1,
        None => 0,
    }
}
