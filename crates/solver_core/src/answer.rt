// What a state's calls answer.
use ifds_model::{Item, Problem};

/// An item that was taken, and how many items were taken until then, from 1; that number stays at the greatest of its
/// type.
#[derive(Drop)]
pub struct Job<P: Problem> {
    pub item: Item<P::Fact>,
    pub take: u64,
}

/// What `take` answers.
#[derive(Drop)]
pub enum Taken<P: Problem> {
    Took(Job<P>),
    /// The queue is empty, and so many items are in hand.
    Idle { in_flight: u32 },
    /// Nothing is left to do.
    Finished,
}

/// What became of an outcome.
#[derive(Clone, Copy, Debug, PartialEq, Eq)]
pub enum Committed {
    /// It was taken in.
    Done,
    /// It was of another item than the worker's, which was queued again.
    GoneBack,
}

/// Why an outcome was not taken in.
#[derive(Clone, Copy, Debug, PartialEq, Eq)]
pub enum CommitStop {
    /// There would be more edges than allowed: so many at least.
    EdgeLimit { found: u64 },
    OutOfMemory,
}

/// What a solver has found: the leaks in order, and the numbers of edges, contexts and commits.
#[derive(Drop)]
pub struct Answer<P: Problem> {
    pub marks: Vec<P::Mark>,
    pub edges: u64,
    pub contexts: u64,
    pub commits: u64,
}
