// The classes of a program by name: which is a subtype of which, and which method a call comes to (docs/FLOW-RULES.md,
// "Classes"). Trees of classes and graphs stand below; the call graph above.
#![tactic(auto)]

mod firsts;
mod index;
mod limits;
mod links;
mod marks;
mod members;
mod modifiers;
mod names;
mod resolve;
mod rows;
pub mod table;

pub use table::ClassTable;
