// Reports of leaks, and how outputs print methods and numbers. Programs and problems stand below; the top call above.
#![tactic(auto)]

mod printed;
pub mod report;

pub use printed::{write_count, write_method_at, write_place};
pub use report::{Report, write_report};
