// What a solver is generic over.
ghost use Rattle.std.specs.Prelude.{◌≡◌, ◌<◌, ◌↔◌, ℕ, OnOk, IsTrue};
ghost use Rattle.clean_base.specs.declared.ids.MethodId.{MethodId};
ghost use Rattle.clean_base.specs.declared.ids.StmtId.{StmtId};
ghost use Rattle.clean_base.specs.Lists.{AppendsSet};
ghost use Rattle.ifds_model.specs.Machine.{Machine};
ghost use Rattle.ifds_model.specs.declared.node.Context.{Context};
ghost use Rattle.ifds_model.specs.declared.node.Node.{Node};
ghost use Rattle.ifds_model.specs.declared.node.Move.{Move};
ghost use Rattle.ifds_model.specs.declared.node.Move.TheVariants.{Go, Call};

use crate::{Context, Move, Node};
use clean_base::{MethodId, Plain, StmtId};
use std::alloc::AllocError;

/// A stack machine over a program's methods and statements (docs/SOLVER.md, "Machines").
pub trait Problem {
    type Fact: Plain;

    type Mark: Plain + Ord;

    /// Its root, its starts, its moves and its returns.
    ghost machine: { Self → Machine Self.Fact Self.Mark };

    /// How many methods there are, numbered from 0.
    ghost methods: { Self → ℕ };

    /// The method in which a statement stands.
    ghost method_of: { Self → StmtId → MethodId };

    /// Calls lead from the one method to the other.
    ghost reaches: { Self → MethodId → MethodId → Type 0 };

    fn root(&self) -> Context<Self::Fact>
        ensures { result ≡ (machine self.now).root };

    fn methods(&self) -> u32
        ensures { result ≡ methods self.now };

    fn method_of(&self, s: StmtId) -> MethodId
        ensures { result ≡ method_of self.now s };

    fn reaches(&self, m: MethodId, n: MethodId) -> bool
        ensures { IsTrue result ↔ reaches self.now m n };

    /// Adds the nodes at which a context starts.
    fn starts(&self, context: &Context<Self::Fact>, out: &mut Vec<Node>) -> Result<(), AllocError>
        ensures { OnOk result (AppendsSet ((machine self.now).start context.now) out.old.items out.new.items) };

    /// Adds the moves of a fact at a node.
    fn step(
        &self,
        node: Node,
        fact: &Self::Fact,
        out: &mut Vec<Move<Self::Fact, Self::Mark>>,
    ) -> Result<(), AllocError>
        ensures { OnOk result (AppendsSet ((machine self.now).step node fact.now) out.old.items out.new.items) };

    /// Adds the moves of the caller, behind its call, for an exit of what it called.
    fn back(
        &self,
        call: StmtId,
        exit: &Self::Fact,
        out: &mut Vec<Move<Self::Fact, Self::Mark>>,
    ) -> Result<(), AllocError>
        ensures { OnOk result (AppendsSet ((machine self.now).back call exit.now) out.old.items out.new.items) };

    /// The root has one start.
    ghost one_start: { (p : Self) → (n : Node) × ((m : Node) → (machine p).start (machine p).root m ↔ (m ≡ n)) };

    /// A context starts in its own method.
    ghost starts_inside: { (p : Self) (e : Context Self.Fact) (n : Node) → (machine p).start e n → method_of p n.stmt ≡ e.method };

    /// A fact goes on in its method.
    ghost goes_inside: { (p : Self) (n m : Node) (f g : Self.Fact) → (machine p).step n f (Go m g) → method_of p m.stmt ≡ method_of p n.stmt };

    /// A call stands at the statement of its node.
    ghost calls_here: { (p : Self) (n : Node) (f : Self.Fact) (at : StmtId) (e : Context Self.Fact) → (machine p).step n f (Call at e) → at ≡ n.stmt };

    /// A called context's method is reached.
    ghost calls_reach: { (p : Self) (n : Node) (f : Self.Fact) (at : StmtId) (e : Context Self.Fact) → (machine p).step n f (Call at e) → reaches p (method_of p n.stmt) e.method };

    /// A caller only goes on behind its call.
    ghost back_goes: { (p : Self) (call : StmtId) (x : Self.Fact) (m : Move Self.Fact Self.Mark) → (machine p).back call x m → (n : Node) × (f : Self.Fact) × (m ≡ Go n f) };

    /// It goes on in the method of its call.
    ghost back_inside: { (p : Self) (call : StmtId) (x : Self.Fact) (n : Node) (f : Self.Fact) → (machine p).back call x (Go n f) → method_of p n.stmt ≡ method_of p call };

    /// Each method reaches itself.
    ghost reaches_itself: { (p : Self) (m : MethodId) → reaches p m m };

    ghost reaches_on: { (p : Self) (l m n : MethodId) → reaches p l m → reaches p m n → reaches p l n };

    /// All methods are below their number.
    ghost root_within: { (p : Self) → (machine p).root.method.0 < methods p };

    ghost stmt_within: { (p : Self) (s : StmtId) → (method_of p s).0 < methods p };

    ghost called_within: { (p : Self) (n : Node) (f : Self.Fact) (at : StmtId) (e : Context Self.Fact) → (machine p).step n f (Call at e) → e.method.0 < methods p };
}
