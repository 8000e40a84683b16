// Reads the tokens of class files by the grammar (docs/FORMATS.md, "Grammar"): the raw tree exactly where they spell a file,
// and else the place where they stop to begin one. Tokens stand below; the pass over names, which makes classes, above.
//
// `tokens` gives each token its kind; a function for each form reads it over a `cursor` (`read_types` to `read_classes`);
// `read` reads a whole file.
#![tactic(auto)]

mod cursor;
pub mod lexeme;
pub mod raw;
mod read;
mod read_bodies;
mod read_classes;
mod read_operands;
mod read_sides;
mod read_statements;
mod read_types;
mod tokens;

pub use cursor::{ParseStop, Reason};
pub use read::read_tokens;
pub use tokens::kind_of;
