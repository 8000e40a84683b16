// Graphs as rows of numbers: what is reached from what, and an order in which each node stands behind those to which it
// steps. The tables of classes and of methods stand above.
#![tactic(auto)]

mod backward;
mod closure;
mod cycle;
mod ordering;
mod search;

pub use closure::{Rows, close};
pub use ordering::{OrderStop, order};
