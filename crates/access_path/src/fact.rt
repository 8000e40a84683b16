// The data-flow facts (docs/FLOW-RULES.md, "Access paths"). What is done with their paths, and statements, stand beside.
use clean_base::{FieldId, Fields, LocalId, Plain, StmtId};

/// Where a path begins: a local, a place that a call hands over, or a static field.
#[derive(Clone, Copy, Debug, PartialEq, Eq, Hash)]
pub enum Base {
    Local(LocalId),
    /// The object whose method runs.
    This,
    /// The parameter with this number, counted from 0.
    Param(u8),
    /// The result of a method.
    Return,
    Static(FieldId),
    /// The exception that is on its way to a handler.
    Thrown,
}

/// Whether a taint is active, or the statement that makes it so.
#[derive(Clone, Copy, Debug, PartialEq, Eq, Hash)]
pub enum Wake {
    Active,
    Asleep(StmtId),
}

/// A value from a source, and the path that holds it: a base, and the fields that are followed from there. It stands for
/// all that lies below the path.
#[derive(Clone, Copy, Debug, PartialEq, Eq, Hash)]
pub struct Taint {
    pub source: StmtId,
    pub base: Base,
    pub fields: Fields,
    pub wake: Wake,
}

/// A data-flow fact: zero, which holds wherever the code is reached, or a taint.
#[derive(Clone, Copy, Debug, PartialEq, Eq, Hash)]
pub enum Fact {
    Zero,
    Taint(Taint),
}

impl Plain for Base {
    ghost use Rattle.std.proofs.Common.{rules};

    ghost exact = { λ x y h. Prim.search rules };
}

impl Plain for Wake {
    ghost use Rattle.std.proofs.Common.{rules};

    ghost exact = { λ x y h. Prim.search rules };
}

impl Plain for Taint {
    ghost use Rattle.std.proofs.Common.{rules};
    ghost use Rattle.clean_base.specs.Exact.{exact_list};
    ghost use Rattle.access_path.specs.Exact.{same_taint};

    ghost exact = { same_taint ⟦<Base as PartialEq>⟧.eq ⟦<Fields as PartialEq>⟧.eq ⟦<Wake as PartialEq>⟧.eq (λ a b h. Prim.search rules) exact_list (λ a b h. Prim.search rules) };
}

impl Plain for Fact {
    ghost use Rattle.std.proofs.Common.{rules};
    ghost use Rattle.clean_base.specs.Exact.{exact_list};
    ghost use Rattle.access_path.specs.Exact.{same_taint};

    ghost exact = { λ x y h. Prim.search (rules, same_taint ⟦<Base as PartialEq>⟧.eq ⟦<Fields as PartialEq>⟧.eq ⟦<Wake as PartialEq>⟧.eq (λ a b e. Prim.search rules) exact_list (λ a b e. Prim.search rules)) };
}
