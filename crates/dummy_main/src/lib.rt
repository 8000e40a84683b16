// The components of an app: lists of them, and the class whose one method means exactly their lifecycles. Trees of classes
// (`jimple_tree`), the index of names and what all lists share (`list_lines`) stand below; programs and the top call above.
#![tactic(auto)]

mod blocks;
mod callback;
pub mod component;
mod entry;
mod generate;
mod invoke;
mod line;
mod list;
mod parts;

pub use component::{Component, ComponentKind};
pub use generate::{main_sig, make};
pub use list::read_components;
