// Writes classes anew: the canonical text of each class of a text is read again as that class. Trees, canonical texts and
// the reader stand below.
#![tactic(auto)]

mod texts;

pub use texts::rewrite;
