// The fields of a program by number (docs/FLOW-RULES.md, "Fields"). The table of classes stands below; who looks at the
// statements of a program by its fields above.
#![tactic(auto)]

mod chain;
mod declared;
mod key;
mod named;
mod sigs;
pub mod table;

pub use table::FieldTable;
