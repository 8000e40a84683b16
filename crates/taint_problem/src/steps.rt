// The moves of a fact at a node, and of a caller behind its call. Sets of facts, and the moves with each of their facts,
// stand below; the problem above.
ghost use Rattle.std.specs.Prelude.{◌≡◌, ◌≤◌, OnOk, IfSome, IfNone, length};
ghost use Rattle.clean_base.specs.Lists.{AppendsSet};
ghost use Rattle.flow_rules.specs.Code.{IsWhole, Stands, IsOpenCall};
ghost use Rattle.flow_rules.specs.Locals.{Sleeps};
ghost use Rattle.flow_rules.specs.Machine.{Step, IsOpen};
ghost use Rattle.flow_rules.specs.Own.{IsStmt};
ghost use Rattle.access_path.specs.declared.view.CallView.{CallView};
ghost use Rattle.taint_problem.specs.Moves.{StaysIn, LeavesBy, ForwardMoves, BackwardMoves, ReturnMoves, Returns};

use crate::crossing::cross;
use crate::facts::{add_after, add_asked, add_handed, add_leaving, add_thrown};
use crate::leaks::mark;
use crate::moves::{all_call, all_exit, all_go_on, all_turn};
use crate::places::{open_call, sleeps, view_at};
use access_path::{CallView, Fact, View};
use alias_flow::under;
use border_flow::back;
use clean_base::StmtId;
use ifds_model::{Dir, Leak, Move, Node};
use program_code::Program;
use std::alloc::AllocError;

// Adds the moves inside the method: with what holds after the statement, and with the aliases that it asks for.
fn go_inside(
    program: &Program,
    view: &View,
    s: StmtId,
    fact: &Fact,
    k: u8,
    scratch: &mut Vec<Fact>,
    out: &mut Vec<Move<Fact, Leak>>,
) -> Result<(), AllocError>
    requires some { 1 ≤ k }
    requires few { k ≤ 8 }
    requires stmt { IsStmt program.now.code s }
    ensures { OnOk result (AppendsSet (StaysIn k program.now.code view.now s fact.now) out.old.items out.new.items) }
{
    let crossed = cross(program, s, fact);
    scratch.clear();
    add_after(view, s, fact, &crossed, k, scratch)?;
    all_go_on(program, Dir::Forward, s, scratch.as_slice(), out)?;
    scratch.clear();
    add_asked(view, s, &crossed, k, scratch)?;
    all_go_on(program, Dir::Backward, s, scratch.as_slice(), out)
}

// Adds the moves that leave the method: into those that it calls, out of its own, and the leak.
fn go_outside(
    program: &Program,
    view: &View,
    s: StmtId,
    fact: &Fact,
    scratch: &mut Vec<Fact>,
    out: &mut Vec<Move<Fact, Leak>>,
) -> Result<(), AllocError>
    requires args { (call : CallView) → IsOpen view.now call → length call.args ≤ 255 }
    requires stmt { IsStmt program.now.code s }
    ensures { OnOk result (AppendsSet (LeavesBy program.now.code view.now s fact.now) out.old.items out.new.items) }
{
    scratch.clear();
    add_handed(view, Dir::Forward, fact, scratch)?;
    all_call(program, s, Dir::Forward, scratch.as_slice(), out)?;
    scratch.clear();
    add_leaving(view, fact, scratch)?;
    all_exit(scratch.as_slice(), out)?;
    mark(view, s, fact, out)
}

// Adds the moves of a fact before the statement.
fn step_forward(
    program: &Program,
    view: &View,
    s: StmtId,
    fact: &Fact,
    k: u8,
    out: &mut Vec<Move<Fact, Leak>>,
) -> Result<(), AllocError>
    requires some { 1 ≤ k }
    requires few { k ≤ 8 }
    requires args { (call : CallView) → IsOpen view.now call → length call.args ≤ 255 }
    requires stmt { IsStmt program.now.code s }
    ensures { OnOk result (AppendsSet (ForwardMoves k program.now.code view.now s fact.now) out.old.items out.new.items) }
{
    let mut scratch = Vec::new(*out.allocator());
    go_inside(program, view, s, fact, k, &mut scratch, out)?;
    go_outside(program, view, s, fact, &mut scratch, out)
}

// Adds the moves of an inactive taint after the statement.
fn step_backward(
    program: &Program,
    view: &View,
    s: StmtId,
    fact: &Fact,
    k: u8,
    out: &mut Vec<Move<Fact, Leak>>,
) -> Result<(), AllocError>
    requires some { 1 ≤ k }
    requires few { k ≤ 8 }
    requires args { (call : CallView) → IsOpen view.now call → length call.args ≤ 255 }
    requires stmt { IsStmt program.now.code s }
    requires sleeps { Sleeps fact.now }
    ensures { OnOk result (AppendsSet (BackwardMoves k program.now.code view.now s fact.now) out.old.items out.new.items) }
{
    let mut scratch = Vec::new(*out.allocator());
    under(view, fact, k, &mut scratch)?;
    all_turn(s, scratch.as_slice(), out)?;
    all_go_on(program, Dir::Backward, s, scratch.as_slice(), out)?;
    scratch.clear();
    add_handed(view, Dir::Backward, fact, &mut scratch)?;
    all_call(program, s, Dir::Backward, scratch.as_slice(), out)
}

// Adds the moves of a fact at a node of the statement.
fn step_at(
    program: &Program,
    view: &View,
    node: Node,
    fact: &Fact,
    k: u8,
    out: &mut Vec<Move<Fact, Leak>>,
) -> Result<(), AllocError>
    requires some { 1 ≤ k }
    requires few { k ≤ 8 }
    requires whole { IsWhole program.now.code }
    requires here { Stands program.now.code node.stmt view.now }
    ensures { OnOk result (AppendsSet (Step k program.now.code node fact.now) out.old.items out.new.items) }
{
    match node.dir {
        Dir::Forward => step_forward(program, view, node.stmt, fact, k, out),
        Dir::Backward if sleeps(fact) => step_backward(program, view, node.stmt, fact, k, out),
        Dir::Backward => Ok(()),
    }
}

// Adds the moves of a fact at a node.
pub(crate) fn add_steps(
    program: &Program,
    node: Node,
    fact: &Fact,
    k: u8,
    out: &mut Vec<Move<Fact, Leak>>,
) -> Result<(), AllocError>
    requires some { 1 ≤ k }
    requires few { k ≤ 8 }
    requires whole { IsWhole program.now.code }
    ensures { OnOk result (AppendsSet (Step k program.now.code node fact.now) out.old.items out.new.items) }
{
    match view_at(program, node.stmt) {
        Some(view) => step_at(program, view, node, fact, k, out),
        None => Ok(()),
    }
}

// Adds the moves of a caller, behind its open call.
fn come_back(
    program: &Program,
    call: &CallView,
    s: StmtId,
    exit: &Fact,
    out: &mut Vec<Move<Fact, Leak>>,
) -> Result<(), AllocError>
    requires stmt { IsStmt program.now.code s }
    requires placed { call.now.stmt ≡ s }
    ensures { OnOk result (AppendsSet (ReturnMoves program.now.code call.now s exit.now) out.old.items out.new.items) }
{
    let mut ahead = Vec::new(*out.allocator());
    let mut behind = Vec::new(*out.allocator());
    add_thrown(exit, &mut ahead)?;
    all_turn(s, ahead.as_slice(), out)?;
    ahead.clear();
    back(call, exit, &mut ahead, &mut behind)?;
    all_go_on(program, Dir::Forward, s, ahead.as_slice(), out)?;
    all_go_on(program, Dir::Backward, s, behind.as_slice(), out)
}

// The open call with this number.
fn call_at(program: &Program, s: StmtId) -> Option<&CallView>
    ensures some { IfSome result (λ call. IsOpenCall program.now.code s call.now) }
    ensures none { IfNone result ((call : CallView) → IsOpenCall program.now.code s call → ⊥) }
{
    open_call(view_at(program, s)?)
}

// Adds the moves of a caller.
pub(crate) fn add_returns(
    program: &Program,
    s: StmtId,
    exit: &Fact,
    out: &mut Vec<Move<Fact, Leak>>,
) -> Result<(), AllocError>
    requires { IsWhole program.now.code }
    ensures { OnOk result (AppendsSet (Returns program.now.code s exit.now) out.old.items out.new.items) }
{
    match call_at(program, s) {
        Some(call) => come_back(program, call, s, exit, out),
        None => Ok(()),
    }
}
