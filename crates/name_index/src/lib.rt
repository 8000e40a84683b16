// Names by their places in a list. Names stand below; the methods of classes and the lists of sources and sinks above.
#![tactic(auto)]

pub mod index;

pub use index::NameIndex;
