// Lists of lists in one allocation for all items, and graphs kept as such, turned the other way. The graph of statements
// stands above.
#![tactic(auto)]

mod backwards;
mod chains;
mod rows;

pub use backwards::converse;
pub use rows::FlatRows;
