// Stages of the work on an input, each of which refuses it or hands on a value: how a chain of them comes out, and why an
// input has no output. `clean_base` stands below; the top call, whose commands are chains of stages, above.
#![tactic(auto)]

pub mod halt;

pub use halt::{Halt, Refusal};
