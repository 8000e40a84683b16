// Forward flow: what holds after a statement that is no open call, and the aliases that it asks for. What the rules are
// stands below in `flow_rules`, and facts and statements in `access_path`; the moves of a program stand above.
#![tactic(auto)]

mod after;
mod aliases;
mod calls;
mod gives;
mod taints;

pub use after::over;
pub use aliases::triggers;
pub use calls::library;
