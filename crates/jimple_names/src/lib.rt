// The pass over names: makes classes of raw classes, with each local by its number and each label by the place of its
// statement, or finds the first name that breaks a rule (docs/FORMATS.md, "Names"). Raw trees stand below; the reader of
// classes above.
#![tactic(auto)]

mod bodies;
mod classes;
mod kinds;
mod members;
mod parameter;
mod resolver;
mod scope;
mod stop;
mod texts;

pub use classes::name_classes;
pub use stop::{NameFault, NameStop};
