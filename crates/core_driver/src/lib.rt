// The driver of a solver: it works a state off to its answer, or plays a list of events on it. `solver_core` below has the
// state and its events, and `ifds_model` the moves of an item; no problem is known here.
#![tactic(auto)]

mod driver;
mod player;

pub use driver::finish;
pub use player::play;
