// The events of a solver's state. `specs/Events.antt` says what each of them changes.
use clean_base::MethodId;

/// What may happen to a solver's state (docs/SOLVER.md, "Events"). Places are counted from the front of the queue.
#[derive(Clone, Copy, Debug, PartialEq, Eq)]
pub enum Event {
    /// A worker takes the item at a place of the queue.
    Take { worker: u32, place: u64 },
    /// The moves of a worker's item are taken in.
    Commit { worker: u32 },
    /// A worker's item goes back to the queue.
    Back { worker: u32 },
    /// The edges of a method, and of all that it reaches, are dropped if it is free.
    Retire { method: MethodId },
    /// Every freed method is retired.
    Sweep,
}
