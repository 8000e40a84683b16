// The parts of an exploded supergraph: nodes, contexts, frames, moves, items and leaks.
ghost use Rattle.std.proofs.Common.{rules};

use clean_base::{Fields, LocalId, MethodId, Plain, StmtId};

/// The way of a search: forward for taints, backward for aliases.
#[derive(Clone, Copy, Debug, PartialEq, Eq, PartialOrd, Ord, Hash)]
pub enum Dir {
    Forward,
    Backward,
}

/// A place in the program. A forward node holds before its statement, a backward node after it.
#[derive(Clone, Copy, Debug, PartialEq, Eq, PartialOrd, Ord, Hash)]
pub struct Node {
    pub stmt: StmtId,
    pub dir: Dir,
}

/// A calling context: a method, entered in a direction with a fact.
#[derive(Clone, Copy, Debug, PartialEq, Eq, PartialOrd, Ord, Hash)]
pub struct Context<F> {
    pub method: MethodId,
    pub dir: Dir,
    pub fact: F,
}

/// A fact at a node, in a context. A path edge is the top frame of some run's last configuration.
#[derive(Clone, Copy, Debug, PartialEq, Eq, PartialOrd, Ord, Hash)]
pub struct Frame<F> {
    pub context: Context<F>,
    pub node: Node,
    pub fact: F,
}

/// What a fact at a node may do.
#[derive(Clone, Copy, Debug, PartialEq, Eq)]
pub enum Move<F, M> {
    /// It goes on to a node of its method, with a fact.
    Go { node: Node, fact: F },
    /// It calls a context, at a statement.
    Call { at: StmtId, context: Context<F> },
    /// It leaves its context with a fact.
    Exit { fact: F },
    /// It is a leak.
    Mark { mark: M },
}

/// Work that a solver still has to do: the moves of an edge, or the return of an exit to a caller.
#[derive(Clone, Copy, Debug, PartialEq, Eq, Hash)]
pub enum Item<F> {
    Edge {
        context: Context<F>,
        node: Node,
        fact: F,
    },
    Join {
        caller: Context<F>,
        call: StmtId,
        callee: Context<F>,
        exit: F,
    },
}

/// A value from a source that reaches an argument of a sink: the sink, the source, and the path that holds it.
#[derive(Clone, Copy, Debug, PartialEq, Eq, PartialOrd, Ord, Hash)]
pub struct Leak {
    pub sink: StmtId,
    pub source: StmtId,
    pub base: LocalId,
    pub fields: Fields,
}

impl Plain for Dir {
    ghost exact = { λ x y h. Prim.search rules };
}

impl Plain for Node {
    ghost exact = { λ x y h. Prim.search rules };
}

impl Plain for Leak {
    ghost use Rattle.ifds_model.specs.Exact.{same_leak};
    ghost use Rattle.clean_base.specs.Exact.{exact_list};

    ghost exact = { same_leak ⟦<Fields as PartialEq>⟧.eq exact_list };
}

impl<F: Plain> Plain for Context<F> {
    ghost use Rattle.std.proofs.Common.{rules};
    ghost use Rattle.ifds_model.specs.Exact.{same_context};

    ghost exact = { λ x y h. same_context ⟦<Dir as PartialEq>⟧.eq F.eq (λ a b e. Prim.search rules) F.exact x y h };
}

impl<F: Plain> Plain for Frame<F> {
    ghost use Rattle.std.proofs.Common.{rules};
    ghost use Rattle.ifds_model.specs.Exact.{same_context, same_frame};

    ghost exact = { λ x y h. same_frame ⟦<Context<F> as PartialEq>⟧.eq ⟦<Node as PartialEq>⟧.eq F.eq (λ a b e. same_context ⟦<Dir as PartialEq>⟧.eq F.eq (λ d f u. Prim.search rules) F.exact a b e) (λ a b e. Prim.search rules) F.exact x y h };
}

impl<F: Plain> Plain for Item<F> {
    ghost use Rattle.std.proofs.Common.{rules};
    ghost use Rattle.ifds_model.specs.Exact.{same_context, same_edge, same_join, same_item};

    ghost exact = { same_item ⟦<Item<F> as PartialEq>⟧.eq (same_edge ⟦<Context<F> as PartialEq>⟧.eq ⟦<Node as PartialEq>⟧.eq F.eq (λ a b e. same_context ⟦<Dir as PartialEq>⟧.eq F.eq (λ d f u. Prim.search rules) F.exact a b e) (λ a b e. Prim.search rules) F.exact) (same_join ⟦<Context<F> as PartialEq>⟧.eq ⟦<Node as PartialEq>⟧.eq F.eq (λ a b e. same_context ⟦<Dir as PartialEq>⟧.eq F.eq (λ d f u. Prim.search rules) F.exact a b e) (λ a b e. Prim.search rules) F.exact) (λ c d n f j l y. ((λ h. Prim.cc h), (λ h. Prim.cc h))) };
}
