// Moves with facts: to the statements next to one, into the methods that it calls, and out of its own. Places stand below,
// steps above.
ghost use Rattle.std.specs.Prelude.{◌↔◌, IsTrue, OnOk, Contains};
ghost use Rattle.clean_base.specs.Lists.{AppendsSet};
ghost use Rattle.clean_base.specs.declared.ids.StmtId.{StmtId};
ghost use Rattle.flow_rules.specs.Locals.{IsThrown};
ghost use Rattle.flow_rules.specs.Only.{OfEach};
ghost use Rattle.flow_rules.specs.Own.{IsStmt};
ghost use Rattle.taint_problem.specs.Moves.{Admits, GoesTo, GoesOn, Enters, CallsEach, Exits, Turns};

use crate::places::{admits, is_thrown, near};
use access_path::Fact;
use clean_base::{MethodId, StmtId};
use ifds_model::{Dir, Leak, Move, Node, push_call, push_exit, push_go};
use program_code::Program;
use std::alloc::AllocError;

// Whether the fact may come to the statement this way.
fn may_go(program: &Program, dir: Dir, q: StmtId, fact: &Fact) -> bool
    requires { IsStmt program.now.code q }
    ensures { IsTrue result ↔ (IsThrown fact.now → Admits program.now.code dir q) }
{
    !is_thrown(fact) || admits(program, dir, q)
}

// Adds the move to one statement.
fn go_to(
    program: &Program,
    dir: Dir,
    q: StmtId,
    fact: &Fact,
    out: &mut Vec<Move<Fact, Leak>>,
) -> Result<(), AllocError>
    requires { IsStmt program.now.code q }
    ensures { OnOk result (AppendsSet (GoesTo program.now.code dir fact.now q) out.old.items out.new.items) }
{
    if may_go(program, dir, q, fact) {
        push_go(out, Node { stmt: q, dir }, fact)?;
    }
    Ok(())
}

// Adds the moves to these statements.
fn go_each(
    program: &Program,
    dir: Dir,
    qs: &[StmtId],
    fact: &Fact,
    out: &mut Vec<Move<Fact, Leak>>,
) -> Result<(), AllocError>
    requires { (q : StmtId) → Contains qs.now q → IsStmt program.now.code q }
    ensures { OnOk result (AppendsSet (OfEach qs.now (GoesTo program.now.code dir fact.now)) out.old.items out.new.items) }
{
    for q in qs {
        go_to(program, dir, *q, fact, out)?;
    }
    Ok(())
}

// Adds the moves to the statements next to this one.
fn go_on(
    program: &Program,
    dir: Dir,
    s: StmtId,
    fact: &Fact,
    out: &mut Vec<Move<Fact, Leak>>,
) -> Result<(), AllocError>
    requires { IsStmt program.now.code s }
    ensures { OnOk result (AppendsSet (GoesOn program.now.code dir s fact.now) out.old.items out.new.items) }
{
    go_each(program, dir, near(program, dir, s), fact, out)
}

// Adds those of each of these facts.
pub(crate) fn all_go_on(
    program: &Program,
    dir: Dir,
    s: StmtId,
    facts: &[Fact],
    out: &mut Vec<Move<Fact, Leak>>,
) -> Result<(), AllocError>
    requires { IsStmt program.now.code s }
    ensures { OnOk result (AppendsSet (OfEach facts.now (GoesOn program.now.code dir s)) out.old.items out.new.items) }
{
    for fact in facts {
        go_on(program, dir, s, fact, out)?;
    }
    Ok(())
}

// Adds the moves into these methods.
fn call_each(
    targets: &[MethodId],
    s: StmtId,
    dir: Dir,
    fact: &Fact,
    out: &mut Vec<Move<Fact, Leak>>,
) -> Result<(), AllocError>
    ensures { OnOk result (AppendsSet (OfEach targets.now (Enters s dir fact.now)) out.old.items out.new.items) }
{
    for target in targets {
        push_call(out, s, *target, dir, fact)?;
    }
    Ok(())
}

// Adds the moves into the methods that the statement calls.
fn call(
    program: &Program,
    s: StmtId,
    dir: Dir,
    fact: &Fact,
    out: &mut Vec<Move<Fact, Leak>>,
) -> Result<(), AllocError>
    requires { IsStmt program.now.code s }
    ensures { OnOk result (AppendsSet (CallsEach program.now.code s dir fact.now) out.old.items out.new.items) }
{
    call_each(program.targets_of(s), s, dir, fact, out)
}

// Adds those of each of these facts.
pub(crate) fn all_call(
    program: &Program,
    s: StmtId,
    dir: Dir,
    facts: &[Fact],
    out: &mut Vec<Move<Fact, Leak>>,
) -> Result<(), AllocError>
    requires { IsStmt program.now.code s }
    ensures { OnOk result (AppendsSet (OfEach facts.now (CallsEach program.now.code s dir)) out.old.items out.new.items) }
{
    for fact in facts {
        call(program, s, dir, fact, out)?;
    }
    Ok(())
}

// Adds the moves out of the method.
pub(crate) fn all_exit(facts: &[Fact], out: &mut Vec<Move<Fact, Leak>>) -> Result<(), AllocError>
    ensures { OnOk result (AppendsSet (OfEach facts.now Exits) out.old.items out.new.items) }
{
    for fact in facts {
        push_exit(out, fact)?;
    }
    Ok(())
}

// Adds the moves to before the statement.
pub(crate) fn all_turn(
    s: StmtId,
    facts: &[Fact],
    out: &mut Vec<Move<Fact, Leak>>,
) -> Result<(), AllocError>
    ensures { OnOk result (AppendsSet (OfEach facts.now (Turns s)) out.old.items out.new.items) }
{
    for fact in facts {
        let node = Node {
            stmt: s,
            dir: Dir::Forward,
        };
        push_go(out, node, fact)?;
    }
    Ok(())
}
