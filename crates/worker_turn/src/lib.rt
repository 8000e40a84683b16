// A ticket lock over one value, whose word counts the value's commits. A pass is the right to enter; what passes have seen and
// made adds up to the word. `atomic_table` stands below, with the steps on words and slots; a crew of workers stands above.
#![tactic(auto)]

mod guard;
mod known;
mod pass;
mod rule;
mod steps;
pub mod tally;
mod turn;

pub use guard::Guard;
pub use known::Known;
pub use pass::{Pass, made, seen, shares};
pub use turn::Turn;
