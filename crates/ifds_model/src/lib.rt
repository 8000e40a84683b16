// Problems whose answers are the path edges and leaks of a stack machine: the machine, its runs, and the trait that
// a solver is generic over. `clean_base` stands below; no crate that knows Jimple or a table does.
#![tactic(auto)]

pub mod event;
pub mod node;
pub mod outcome;
pub mod problem;
pub mod push;

pub use event::Event;
pub use node::{Context, Dir, Frame, Item, Leak, Move, Node};
pub use outcome::{Outcome, work};
pub use problem::Problem;
pub use push::{push_call, push_exit, push_go, push_mark};
