// Tests of command lines: words, and what they ask for. It holds nothing else.
#![tactic(auto)]

pub mod tests;
