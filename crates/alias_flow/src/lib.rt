// Backward flow of aliases: what holds before a statement where an inactive taint holds after it. What the rules are
// stands below in `flow_rules`, and facts and statements in `access_path`; the moves of a program stand above.
#![tactic(auto)]

mod backward;

pub use backward::under;
