// The words and signs of a Jimple text: kinds of bytes, and the kind of a keyword, of another word and of a sign by its text.
// Nothing of the project stands below; the lexer, the grammar and the text of names stand above.
#![tactic(auto)]

pub mod bytes;
pub mod kind;
mod kinds;
mod parameter;

pub use kinds::{is_further_modifier, is_keyword, is_reserved, keyword_kind, sign_kind};
pub use parameter::{parameter_number, word_kind};
