// Jimple classes as trees. `clean_base` stands below; the readers of texts and all that works on classes above.
#![tactic(auto)]

mod copy;
mod labels;
mod names;
mod operand;
mod statement;
mod statements;
pub mod tree;
pub mod write;

pub use statements::stmts_of;
pub use tree::{
    BinOp, Body, Case, Catch, Class, Cond, Field, FieldSig, Given, Imm, Invoke, InvokeKind, JType,
    Local, Method, Place, Rhs, Sig, Stmt,
};
pub use write::write_class;
