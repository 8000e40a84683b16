// The words of a command line, read by clap: what each command is asked for, or that the words are none of its own.
// Words and lists of them (`clean_base`) and the text of signatures (`source_sink`) stand below; the top call above.
#![tactic(auto)]

mod check;
mod graph;
mod input;
mod line;
mod main_command;
mod matches;
mod replay;
mod serial;
mod tuning;
mod words;

pub use check::read_check;
pub use graph::read_graph;
pub use input::{Input, Root};
pub use main_command::read_main;
pub use replay::{Replay, read_replay};
pub use serial::{Serial, read_serial};
pub use tuning::Tuning;
