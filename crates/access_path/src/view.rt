// A statement as the flow rules see it, with its names resolved (docs/FLOW-RULES.md, "Access paths"). Facts stand beside,
// the rules above.
use crate::fact::Base;
use clean_base::{FieldId, LocalId, Seq, StmtId};

/// A call as the flow rules see it.
#[derive(Debug, Drop)]
pub struct CallView {
    pub stmt: StmtId,
    /// The local to which its result is written.
    pub result: Option<LocalId>,
    pub receiver: Option<LocalId>,
    /// For each argument its local: a literal has none.
    pub args: Seq<Option<LocalId>>,
    pub source: bool,
    pub sink: bool,
    /// Methods of the program are called. Every other call is a library call.
    pub is_open: bool,
}

/// A statement as the flow rules see it. The elements of an array are its field `[]`, and a literal is no local.
#[derive(Debug, Drop)]
pub enum View {
    /// A local takes what a base holds: a static field is read, or an exception caught, by a copy too.
    Copy {
        to: LocalId,
        from: Base,
    },
    /// An assignment to a local that passes nothing on.
    Kill {
        to: LocalId,
    },
    Load {
        to: LocalId,
        base: LocalId,
        field: FieldId,
    },
    Store {
        base: LocalId,
        field: FieldId,
        from: Option<LocalId>,
    },
    StaticStore {
        field: FieldId,
        from: Option<LocalId>,
    },
    /// An operation, with the local of each operand that is one.
    Mix {
        to: LocalId,
        left: Option<LocalId>,
        right: Option<LocalId>,
    },
    Call(CallView),
    Return {
        value: Option<LocalId>,
    },
    Throw {
        value: Option<LocalId>,
    },
    Other,
}
