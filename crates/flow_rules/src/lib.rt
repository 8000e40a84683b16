// The flow rules over facts with access paths, as definitions, with a program's machine among them; and what the crates
// that carry the rules out share. Facts and statements stand below, those crates and the problem of a program above.
#![tactic(auto)]

pub mod fields;
pub mod locals;

pub use fields::{elements, inside};
pub use locals::{add, becomes, holds, is_argument, is_of};
