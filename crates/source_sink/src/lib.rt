// Sources and sinks: the text of method signatures, lists of them, and what a list says of a method. Trees of
// classes (`jimple_tree`), the index by name and what all lists share (`list_lines`) stand below; the call graph and the tables of rules stand above.
#![tactic(auto)]

mod cursor;
mod entry;
mod line;
mod lists;
mod signature;
mod words;

pub use line::{Kind, Line, either};
pub use lists::{Lists, read_lists};
pub use signature::read_sig;
