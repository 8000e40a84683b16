// Data-flow facts with access paths, what is done with a path, and statements as the flow rules see them. Ids and lists of
// fields stand below; no rule is known here, and no program. The crates of the flow rules stand above.
#![tactic(auto)]

pub mod fact;
pub mod path;
pub mod view;

pub use fact::{Base, Fact, Taint, Wake};
pub use path::{activate, prepend, rebase, sleep, starts_with, strip};
pub use view::{CallView, View};
