// What comes back in the caller, ahead of the call and behind it (docs/FLOW-RULES.md, "Back in the caller"). Paths stand
// below, the moves of a program above.
ghost use Rattle.std.specs.Prelude.{◌≡◌, ◌≢◌, [], OnOk, Some, IfSome};
ghost use Rattle.clean_base.specs.Lists.{AppendsSet, At};
ghost use Rattle.access_path.specs.Paths.{sleep};
ghost use Rattle.access_path.specs.declared.fact.Taint.{Taint};
ghost use Rattle.flow_rules.specs.Border.{ComesAhead, ComesOut, IsOutside, ReturnsAhead, ReturnsBehind};
ghost use Rattle.flow_rules.specs.Locals.{Holds};
ghost use Rattle.flow_rules.specs.Only.{IsOnly};

use access_path::{Base, CallView, Fact, Taint, rebase, sleep};
use clean_base::{LocalId, StmtId};
use flow_rules::{add, becomes, holds};
use std::alloc::AllocError;

// The argument with this number, where it is a local.
fn argument(call: &CallView, i: usize) -> Option<LocalId>
    ensures { IsOnly (λ x. At call.now.args i (Some x)) result }
{
    match call.args.as_slice().get(i) {
        Some(arg) => *arg,
        None => None,
    }
}

// What the caller calls the base.
fn outside(call: &CallView, base: Base) -> Option<LocalId>
    ensures { IsOnly (IsOutside call.now base) result }
{
    match base {
        Base::This => call.receiver,
        Base::Param(i) => argument(call, i as usize),
        _ => None,
    }
}

// What lies below the receiver or a parameter, in the caller's names.
fn brought(call: &CallView, t: &Taint) -> Option<Taint>
    ensures only { IsOnly (ComesOut call.now t.now) result }
    ensures below { IfSome result (λ u. u.fields ≢ []) }
{
    if t.fields.is_empty() {
        return None;
    }
    let x = outside(call, t.base)?;
    Some(rebase(t, Base::Local(x)))
}

// The taint, unless the result is written over it.
fn unless_written(call: &CallView, taint: Option<Taint>) -> Option<Taint>
    ensures { IsOnly (λ u. (Holds call.now.result u → ⊥) × (taint ≡ Some u)) result }
{
    let t = taint?;
    if holds(call.result, &t) {
        None
    } else {
        Some(t)
    }
}

// The taint as an inactive one.
fn put_to_sleep(taint: Option<Taint>, at: StmtId) -> Option<Taint>
    requires { IfSome taint (λ u. u.fields ≢ []) }
    ensures { IsOnly (λ u. (v : Taint) × (taint ≡ Some v) × (u ≡ sleep at v)) result }
{
    match taint {
        Some(t) => Some(sleep(&t, at)),
        None => None,
    }
}

// What comes ahead of a taint.
fn comes_ahead(call: &CallView, t: &Taint) -> Option<Taint>
    ensures { IsOnly (ComesAhead call.now t.now.base t.now) result }
{
    match t.base {
        Base::Static(_) => Some(*t),
        Base::Return => becomes(call.result, t),
        Base::This => unless_written(call, brought(call, t)),
        Base::Param(_) => unless_written(call, brought(call, t)),
        _ => None,
    }
}

// What comes behind of a taint.
fn comes_behind(call: &CallView, t: &Taint) -> Option<Taint>
    ensures { IsOnly (λ u. (v : Taint) × ComesOut call.now t.now v × (u ≡ sleep call.now.stmt v)) result }
{
    put_to_sleep(brought(call, t), call.stmt)
}

/// Adds what comes back in the caller of what left a called method, ahead of the call and behind it (docs/FLOW-RULES.md,
/// "Back in the caller"). Of an exception nothing does: the moves of a program say where it goes.
pub fn back(
    call: &CallView,
    exit: &Fact,
    ahead: &mut Vec<Fact>,
    behind: &mut Vec<Fact>,
) -> Result<(), AllocError>
    ensures ahead { OnOk result (AppendsSet (ReturnsAhead call.now exit.now) ahead.old.items ahead.new.items) }
    ensures behind { OnOk result (AppendsSet (ReturnsBehind call.now call.now.stmt exit.now) behind.old.items behind.new.items) }
{
    match exit {
        Fact::Zero => {
            ahead.push(Fact::Zero)?;
            Ok(())
        }
        Fact::Taint(t) => {
            add(comes_ahead(call, t), ahead)?;
            add(comes_behind(call, t), behind)
        }
    }
}
