// The tokens of a Jimple text, or its first fault below the grammar. `clean_base` stands below, the reader of classes above.
#![tactic(auto)]

mod bytes;
mod ends;
mod front;
pub mod lexer;
mod runs;
pub mod token;
mod words;

pub use lexer::lex;
pub use token::{Token, TokenKind};
