// A whole program as a problem for a solver. Steps, starts and places stand below; the crates that make programs of
// classes, and those that solve, stand above.
ghost use Rattle.std.specs.Prelude.{◌≡◌, ◌≤◌};
ghost use Rattle.std.proofs.Props.{props};
ghost use Rattle.ifds_model.specs.Runs.{IsLeak};
ghost use Rattle.ifds_model.specs.declared.node.Leak.{Leak};
ghost use Rattle.flow_rules.specs.Machine.{machine};
ghost use Rattle.flow_rules.specs.Own.{OwnLeak};
ghost use Rattle.taint_problem.specs.Whole.{IsKept};

use crate::places::{leads, method_of};
use crate::starts::add_starts;
use crate::steps::{add_returns, add_steps};
use access_path::Fact;
use clean_base::{MethodId, StmtId};
use ifds_model::{Context, Dir, Leak, Move, Node, Problem};
use program_code::Program;
use std::alloc::AllocError;

/// A program whose runs begin at its root, with zero. Paths keep their first `k` fields.
#[derive(Drop)]
pub struct TaintProblem<'a> {
    program: &'a Program,
    root: MethodId,
    k: u8,
    ghost enters: { root ≡ program.now.code.root },
    ghost kept: { IsKept program.now.code } by { Prim.hlevel props },
    ghost some: { 1 ≤ k },
    ghost few: { k ≤ 8 },
}

impl<'a> TaintProblem<'a> {
    /// The problem whose machine is that of the program, with paths of at most `k` fields.
    pub fn new(program: &'a Program, k: u8) -> TaintProblem<'a>
        requires some { 1 ≤ k }
        requires few { k ≤ 8 }
        ensures program { result.program.now ≡ program.now }
        ensures k { result.k ≡ k }
        ensures leaks { (l : Leak) → IsLeak (machine result.k result.program.now.code) l → OwnLeak result.program.now.code l }
    {
        TaintProblem {
            program,
            root: program.root(),
            k,
        }
    }
}

impl Problem for TaintProblem<'_> {
    type Fact = Fact;

    type Mark = Leak;

    ghost use Rattle.std.specs.Prelude.{length};
    ghost use Rattle.reach_rows.specs.Reaches.{here};
    ghost use Rattle.flow_rules.specs.Code.{Leads, method_of};
    ghost use Rattle.flow_rules.specs.Machine.{machine};
    ghost use Rattle.flow_rules.proofs.Laws.{one_start, starts_inside, goes_inside, calls_here, calls_reach, back_goes, back_inside, reaches_on, called_within};
    ghost use Rattle.taint_problem.specs.Laws.{stmt_within};
    ghost use Rattle.taint_problem.specs.Whole.{whole_of};

    ghost machine = { λ p. machine p.k p.program.now.code };

    ghost methods = { λ p. length p.program.now.code.firsts };

    ghost method_of = { λ p s. method_of p.program.now.code s };

    // A number that isn't a method's leads to itself alone.
    ghost reaches = { λ p m n. Leads p.program.now.code m n };

    fn root(&self) -> Context<Fact> {
        Context {
            method: self.root,
            dir: Dir::Forward,
            fact: Fact::Zero,
        }
    }

    fn methods(&self) -> u32 {
        self.program.methods()
    }

    fn method_of(&self, s: StmtId) -> MethodId {
        method_of(self.program, s)
    }

    fn reaches(&self, m: MethodId, n: MethodId) -> bool {
        leads(self.program, m, n)
    }

    fn starts(&self, context: &Context<Fact>, out: &mut Vec<Node>) -> Result<(), AllocError> {
        add_starts(self.program, context, out)
    }

    fn step(
        &self,
        node: Node,
        fact: &Fact,
        out: &mut Vec<Move<Fact, Leak>>,
    ) -> Result<(), AllocError> {
        add_steps(self.program, node, fact, self.k, out)
    }

    fn back(
        &self,
        call: StmtId,
        exit: &Fact,
        out: &mut Vec<Move<Fact, Leak>>,
    ) -> Result<(), AllocError> {
        add_returns(self.program, call, exit, out)
    }

    ghost one_start = { λ p. one_start p.k p.program.now.code (whole_of p.program.now.code p.kept) };

    ghost starts_inside = { λ p e n s. starts_inside p.k p.program.now.code (whole_of p.program.now.code p.kept) e n s };

    ghost goes_inside = { λ p n m f g s. goes_inside p.k p.program.now.code (whole_of p.program.now.code p.kept) n m f g s };

    ghost calls_here = { λ p n f at e s. calls_here p.k p.program.now.code (whole_of p.program.now.code p.kept) n f at e s };

    ghost calls_reach = { λ p n f at e s. calls_reach p.k p.program.now.code (whole_of p.program.now.code p.kept) n f at e s };

    ghost back_goes = { λ p call x m s. back_goes p.k p.program.now.code (whole_of p.program.now.code p.kept) call x m s };

    ghost back_inside = { λ p call x n f s. back_inside p.k p.program.now.code (whole_of p.program.now.code p.kept) call x n f s };

    ghost reaches_itself = { λ p m. here };

    ghost reaches_on = { λ p l m n a b. reaches_on p.k p.program.now.code (whole_of p.program.now.code p.kept) l m n a b };

    ghost root_within = { λ p. p.kept.root };

    ghost stmt_within = { λ p s. stmt_within p.program.now.code (whole_of p.program.now.code p.kept) s };

    ghost called_within = { λ p n f at e s. called_within p.k p.program.now.code (whole_of p.program.now.code p.kept) n f at e s };
}
