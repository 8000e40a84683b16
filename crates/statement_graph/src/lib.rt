// The statements of all bodies of a table of classes by number, and where each of them leads (docs/FLOW-RULES.md,
// "Successors"). Tables of classes and rows stand below; what goes along statements stands above.
#![tactic(auto)]

mod bodies;
pub mod graph;
mod listed;
mod rows;
mod successors;

pub use graph::{StatementGraph, StatementLists};
pub use successors::next_places;
