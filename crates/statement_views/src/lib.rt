// Statements as the flow rules see them. Trees of classes, calls, fields and the views stand below; programs above.
#![tactic(auto)]

pub mod seen;
mod views;

pub use seen::{Seen, seen_in};
