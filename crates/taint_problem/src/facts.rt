// The facts that a statement makes of one, by what is to be done with them: those after it, the aliases that it asks for,
// what it hands over, and what leaves its method. The flow rules stand below, moves above.
ghost use Rattle.std.specs.Prelude.{◌≡◌, ◌⊎◌, ◌≤◌, length, OnOk, Some};
ghost use Rattle.clean_base.specs.Lists.{AppendsSet};
ghost use Rattle.access_path.specs.declared.view.CallView.{CallView};
ghost use Rattle.flow_rules.specs.Border.{Passes};
ghost use Rattle.flow_rules.specs.Locals.{IsThrown};
ghost use Rattle.flow_rules.specs.Machine.{IsOpen};
ghost use Rattle.taint_problem.specs.Moves.{AfterCrossed, AskedCrossed, HandedOver, Leaves};

use crate::places::{is_thrown, open_call};
use access_path::{CallView, Fact, View};
use border_flow::{entries, exits, past_call, thrown};
use clean_base::StmtId;
use forward_flow::{over, triggers};
use ifds_model::Dir;
use std::alloc::AllocError;

// Adds the fact itself, where it is an exception's.
pub(crate) fn add_thrown(fact: &Fact, out: &mut Vec<Fact>) -> Result<(), AllocError>
    ensures { OnOk result (AppendsSet (λ g. IsThrown fact.now × (g ≡ fact.now)) out.old.items out.new.items) }
{
    if is_thrown(fact) {
        out.push(*fact)?;
    }
    Ok(())
}

// Adds what holds past an open call. An exception that another call threw goes on as it is.
fn add_past(
    call: &CallView,
    fact: &Fact,
    crossed: &Fact,
    out: &mut Vec<Fact>,
) -> Result<(), AllocError>
    ensures { OnOk result (AppendsSet (λ g. Passes call.now crossed.now g ⊎ (IsThrown fact.now × (g ≡ fact.now))) out.old.items out.new.items) }
{
    past_call(call, crossed, out)?;
    add_thrown(fact, out)
}

// Adds what holds after the statement in its own method, of a fact that has crossed it.
pub(crate) fn add_after(
    view: &View,
    s: StmtId,
    fact: &Fact,
    crossed: &Fact,
    k: u8,
    out: &mut Vec<Fact>,
) -> Result<(), AllocError>
    requires some { 1 ≤ k }
    requires few { k ≤ 8 }
    ensures { OnOk result (AppendsSet (AfterCrossed k view.now s fact.now crossed.now) out.old.items out.new.items) }
{
    match open_call(view) {
        Some(call) => add_past(call, fact, crossed, out),
        None => over(view, s, crossed, k, out),
    }
}

// Adds the aliases that the statement asks for, of a fact that has crossed it.
pub(crate) fn add_asked(
    view: &View,
    s: StmtId,
    crossed: &Fact,
    k: u8,
    out: &mut Vec<Fact>,
) -> Result<(), AllocError>
    requires some { 1 ≤ k }
    requires few { k ≤ 8 }
    ensures { OnOk result (AppendsSet (AskedCrossed k view.now s crossed.now) out.old.items out.new.items) }
{
    match open_call(view) {
        Some(_) => Ok(()),
        None => triggers(view, s, crossed, k, out),
    }
}

// Adds what an open call hands over.
pub(crate) fn add_handed(
    view: &View,
    dir: Dir,
    fact: &Fact,
    out: &mut Vec<Fact>,
) -> Result<(), AllocError>
    requires { (call : CallView) → IsOpen view.now call → length call.args ≤ 255 }
    ensures { OnOk result (AppendsSet (HandedOver view.now dir fact.now) out.old.items out.new.items) }
{
    match open_call(view) {
        Some(call) => entries(call, dir, fact, out),
        None => Ok(()),
    }
}

// Adds what leaves the method.
pub(crate) fn add_leaving(view: &View, fact: &Fact, out: &mut Vec<Fact>) -> Result<(), AllocError>
    ensures { OnOk result (AppendsSet (Leaves view.now fact.now) out.old.items out.new.items) }
{
    match view {
        View::Return { value } => exits(*value, fact, out),
        View::Throw { value } => thrown(*value, fact, out),
        View::Call(call) if call.is_open => add_thrown(fact, out),
        _ => Ok(()),
    }
}
