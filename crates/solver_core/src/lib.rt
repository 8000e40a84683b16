// The tabulation solver: a state that takes items, takes in their moves and answers what is exact once nothing is left
// to do. `ifds_model` says what its events are, and `entry_tables` holds contexts, callers and exits; no problem is
// known here.
#![tactic(auto)]

pub mod answer;
mod edges;
mod intake;
mod limit;
mod marks;
mod moves;
mod parts;
mod pending;
mod prepare;
mod ready;
mod room;
mod sets;
pub mod state;

pub use answer::{Answer, CommitStop, Committed, Job, Taken};
pub use state::State;
