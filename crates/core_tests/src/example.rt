// A small program as a problem for a solver; `specs/Example.antt` gives its machine. The tests of solvers stand above.
ghost use Rattle.std.specs.Prelude.{◌≡◌, ◌↔◌, IfSome, IfNone, OnOk};
ghost use Rattle.clean_base.specs.Lists.{AppendsSet};
ghost use Rattle.core_tests.specs.Example.{before, entered, other, LastStart, Step};

use clean_base::{LocalId, MethodId, StmtId};
use ifds_model::{Context, Dir, Move, Node, Problem};
use std::alloc::AllocError;

/// The program, whose second method may call itself.
#[derive(Clone, Copy)]
pub struct Example {
    pub recursive: bool,
}

pub const fn before(stmt: u32) -> Node
    ensures { result ≡ before stmt }
{
    Node {
        stmt: StmtId(stmt),
        dir: Dir::Forward,
    }
}

pub const fn entered(method: u32, fact: LocalId) -> Context<LocalId>
    ensures { result ≡ entered method fact }
{
    Context {
        method: MethodId(method),
        dir: Dir::Forward,
        fact,
    }
}

fn other(fact: LocalId) -> LocalId
    ensures { result ≡ other fact }
{
    if fact.0 == 7 { LocalId(8) } else { LocalId(7) }
}

// The one move of a fact at a node.
fn move_of(node: Node, fact: LocalId) -> Option<Move<LocalId, LocalId>>
    ensures some { IfSome result (λ only. (m : _) → Step node fact m ↔ (m ≡ only)) }
    ensures none { IfNone result ((m : _) → Step node fact m → ⊥) }
{
    if node.dir != Dir::Forward {
        return None;
    }
    match node.stmt.0 {
        0 => Some(Move::Go {
            node: before(1),
            fact,
        }),
        1 => Some(Move::Call {
            at: node.stmt,
            context: entered(1, fact),
        }),
        2 => Some(Move::Mark { mark: fact }),
        3 => Some(Move::Call {
            at: node.stmt,
            context: entered(1, other(fact)),
        }),
        4 => Some(Move::Exit { fact }),
        _ => None,
    }
}

// Adds the starts of the second method.
fn add_last_starts(recursive: bool, out: &mut Vec<Node>) -> Result<(), AllocError>
    ensures { OnOk result (AppendsSet (LastStart recursive) out.old.items out.new.items) }
{
    out.push(before(4))?;
    if recursive {
        out.push(before(3))?;
    }
    Ok(())
}

impl Problem for Example {
    type Fact = LocalId;

    type Mark = LocalId;

    ghost use Rattle.std.specs.Prelude.{◌≡◌, nat_lt};
    ghost use Rattle.std.proofs.Common.{refl, inl, inr, arith};
    ghost use Rattle.core_tests.specs.Example.{before, machine, method_of, Reaches, starts_inside, goes_inside, calls_reach, back_goes, back_inside, reaches_on, within, called_within};

    ghost machine = { λ p. machine p.recursive };

    ghost methods = { λ p. 2 };

    ghost method_of = { λ p s. method_of s };

    ghost reaches = { λ p m n. Reaches m n };

    fn root(&self) -> Context<LocalId> {
        entered(0, LocalId(7))
    }

    fn methods(&self) -> u32 {
        2
    }

    fn method_of(&self, s: StmtId) -> MethodId {
        if s.0 < 3 { MethodId(0) } else { MethodId(1) }
    }

    fn reaches(&self, m: MethodId, n: MethodId) -> bool {
        m == n || m.0 == 0
    }

    fn starts(&self, context: &Context<LocalId>, out: &mut Vec<Node>) -> Result<(), AllocError> {
        match context.method.0 {
            0 => out.push(before(0))?,
            1 => add_last_starts(self.recursive, out)?,
            _ => {}
        }
        Ok(())
    }

    fn step(
        &self,
        node: Node,
        fact: &LocalId,
        out: &mut Vec<Move<LocalId, LocalId>>,
    ) -> Result<(), AllocError> {
        if let Some(only) = move_of(node, *fact) {
            out.push(only)?;
        }
        Ok(())
    }

    fn back(
        &self,
        call: StmtId,
        exit: &LocalId,
        out: &mut Vec<Move<LocalId, LocalId>>,
    ) -> Result<(), AllocError> {
        match call.0 {
            1 => out.push(Move::Go {
                node: before(2),
                fact: *exit,
            })?,
            3 => out.push(Move::Go {
                node: before(4),
                fact: *exit,
            })?,
            _ => {}
        }
        Ok(())
    }

    ghost one_start = { λ p. (before 0, λ m. ((λ s. elim s [ inl a ↦ a.1 | inr b ↦ absurd (Prim.omega (arith, b.0)) ]), (λ e. inl (refl, e)))) };

    ghost starts_inside = { λ p e n s. starts_inside p.recursive e n s };

    ghost goes_inside = { λ p n m f g s. goes_inside n m f g s };

    ghost calls_here = { λ p n f at e s. s.0 };

    ghost calls_reach = { λ p n f at e s. calls_reach n f at e s };

    ghost back_goes = { λ p call x m s. back_goes call x m s };

    ghost back_inside = { λ p call x n f s. back_inside call x n f s };

    ghost reaches_itself = { λ p m. inl refl };

    ghost reaches_on = { λ p l m n a b. reaches_on l m n a b };

    ghost root_within = { λ p. Prim.omega arith };

    ghost stmt_within = { λ p s. within (nat_lt s.0 3) };

    ghost called_within = { λ p n f at e s. called_within n f at e s };
}
