// Lines of lists: how they are cut from the bytes of a file, what a list gives line by line, and its first line with a fault
// (docs/FORMATS.md, "Lines of lists"). `bstr` and the faults of inputs stand below; lists of components and lists of sources
// and sinks above.
#![tactic(auto)]

pub mod line;

pub use line::{is_passed_over, trimmed, without_blanks_before, word_len};
