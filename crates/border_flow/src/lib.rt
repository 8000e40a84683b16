// Flow at open calls: what a call hands over, what passes it, what leaves a method, and what comes back in its caller. What
// the rules are stands below in `flow_rules`, and facts and statements in `access_path`; the moves of a program stand
// above.
#![tactic(auto)]

mod caller;
mod entry;
mod leave;
mod past;

pub use caller::back;
pub use entry::entries;
pub use leave::{exits, thrown};
pub use past::past_call;
