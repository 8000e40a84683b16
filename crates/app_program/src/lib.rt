// Programs of classes and lists. Tables of classes, their fields, statements, calls and views stand below; the top call above.
#![tactic(auto)]

mod calls;
pub mod code_lists;
pub mod ends;
pub mod entry;
mod methods;
mod program;

pub use entry::{Entry, root_of};
pub use program::assemble;
