// A whole program, as a solver and a report read it: its statements and methods by their numbers, what calls what, and its
// classes. The table of classes, graphs and the flow rules' view of a program stand below; the crates that make a program
// of classes, and the problem that is made of it, above.
#![tactic(auto)]

pub mod parts;
pub mod program;
mod stmts;

pub use parts::Parts;
pub use program::Program;
pub use stmts::raises;
