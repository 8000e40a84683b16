// Reads the classes of a text: its tokens, their tree, and the names in it. Each of these is a crate below; the program
// stands above.
#![tactic(auto)]

pub mod read;

pub use read::read_classes;
