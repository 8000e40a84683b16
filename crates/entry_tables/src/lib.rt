// The contexts that a solver knows, numbered from 0, and for each its callers and its exits.
// `ifds_model` and `indexmap` stand below; the solver's state stands above.
#![tactic(auto)]

mod entries;
mod kept;
mod places;
mod rows;
pub mod tables;

pub use tables::{CallSite, EntryTables};
