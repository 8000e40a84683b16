// The top call: the whole program over words, files and sinks. The reader of texts (`jimple_text`), lists
// (`source_sink`), tables of classes (`class_table`), call graphs (`call_graph`), programs (`app_program`, `taint_problem`), reports (`leak_report`)
// and the solver (`solver_core`, `core_driver`) stand below; `clean_cli` gives it the real files and streams. A command is
// a chain of stages (`clean_stage`) on the texts of its files; a further one adds its words, its task and its stages.
#![tactic(auto)]

mod complain;
mod count;
#[cfg(test)]
mod devices;
mod graph;
pub mod input;
mod output;
mod print;
mod read;
mod serve;
mod status;
mod task;
#[cfg(test)]
mod tests;
mod words;
mod work;

pub use output::Output;
pub use read::{Text, Texts};
pub use serve::clean_plain;
pub use status::Status;
pub use task::{Command, Named, Start, Task};
