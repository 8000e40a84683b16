// What an open call hands over to the methods that it may call (docs/FLOW-RULES.md, "Into a method"). Paths stand below,
// the moves of a program above.
ghost use Rattle.std.specs.Prelude.{◌≡◌, ◌≤◌, OnOk, length, Some};
ghost use Rattle.clean_base.specs.Lists.{AppendsSet};
ghost use Rattle.flow_rules.specs.Border.{Enters, IsInside, IsInsideAtEnd, Renamed};
ghost use Rattle.flow_rules.specs.Locals.{OnTaints};
ghost use Rattle.flow_rules.specs.Only.{IsOnly};
ghost use Rattle.border_flow.specs.Parts.{EntersFirst, EntersThis};

use access_path::{Base, CallView, Fact, Taint, rebase};
use clean_base::LocalId;
use flow_rules::add;
use ifds_model::Dir;
use std::alloc::AllocError;

// The taint as one of the receiver, where that is the local.
fn as_receiver(call: &CallView, t: &Taint, x: LocalId) -> Option<Taint>
    ensures { IsOnly (EntersThis call.now t.now x) result }
{
    if call.receiver == Some(x) {
        Some(rebase(t, Base::This))
    } else {
        None
    }
}

// Adds a fact where the argument is the local.
fn add_param(
    arg: Option<LocalId>,
    x: LocalId,
    entered: Fact,
    out: &mut Vec<Fact>,
) -> Result<(), AllocError>
    ensures { OnOk result (AppendsSet (λ g. (arg ≡ Some x) × (g ≡ entered)) out.old.items out.new.items) }
{
    if arg == Some(x) {
        out.push(entered)?;
    }
    Ok(())
}

// Adds the taint as one of each parameter whose argument is the local.
fn add_params(
    args: &[Option<LocalId>],
    t: &Taint,
    x: LocalId,
    out: &mut Vec<Fact>,
) -> Result<(), AllocError>
    requires { length args.now ≤ 256 }
    ensures { OnOk result (AppendsSet (EntersFirst args.now (length args.now) t.now x) out.old.items out.new.items) }
{
    for (i, arg) in args.iter().enumerate() {
        let entered = Fact::Taint(rebase(t, Base::Param(i as u8)));
        add_param(*arg, x, entered, out)?;
    }
    Ok(())
}

// Adds the taint of a local under its names inside.
fn add_local(call: &CallView, t: &Taint, x: LocalId, out: &mut Vec<Fact>) -> Result<(), AllocError>
    requires args { length call.now.args ≤ 256 }
    requires of { t.now.base ≡ Base.Local x }
    ensures { OnOk result (AppendsSet (OnTaints (Renamed (IsInside call.now)) (Fact.Taint t.now)) out.old.items out.new.items) }
{
    add(as_receiver(call, t, x), out)?;
    add_params(call.args.as_slice(), t, x, out)
}

// Adds the taint under its base's names inside.
fn add_inside(call: &CallView, t: &Taint, out: &mut Vec<Fact>) -> Result<(), AllocError>
    requires { length call.now.args ≤ 256 }
    ensures { OnOk result (AppendsSet (OnTaints (Renamed (IsInside call.now)) (Fact.Taint t.now)) out.old.items out.new.items) }
{
    match t.base {
        Base::Local(x) => add_local(call, t, x, out),
        Base::Static(_) => add(Some(*t), out),
        _ => Ok(()),
    }
}

// The taint under its base's name at the end of the method.
fn at_end(call: &CallView, t: &Taint) -> Option<Taint>
    ensures { IsOnly (Renamed (IsInsideAtEnd call.now) t.now) result }
{
    match t.base {
        Base::Local(x) if call.result == Some(x) => Some(rebase(t, Base::Return)),
        Base::Thrown => Some(*t),
        _ => None,
    }
}

// Adds what a call hands over to the end of the method.
fn enter_behind(call: &CallView, t: &Taint, out: &mut Vec<Fact>) -> Result<(), AllocError>
    requires { length call.now.args ≤ 256 }
    ensures { OnOk result (AppendsSet (Enters call.now Dir.Backward (Fact.Taint t.now)) out.old.items out.new.items) }
{
    if t.fields.is_empty() {
        return Ok(());
    }
    add_inside(call, t, out)?;
    add(at_end(call, t), out)
}

/// Adds what an open call hands over to the methods that it may call: forward to their start, of the fact before the call,
/// and backward to their end, of the fact after it (docs/FLOW-RULES.md, "Into a method"). The fact hasn't crossed the call.
pub fn entries(
    call: &CallView,
    dir: Dir,
    fact: &Fact,
    out: &mut Vec<Fact>,
) -> Result<(), AllocError>
    requires { length call.now.args ≤ 256 }
    ensures { OnOk result (AppendsSet (Enters call.now dir fact.now) out.old.items out.new.items) }
{
    match (dir, fact) {
        (Dir::Forward, Fact::Zero) => {
            out.push(Fact::Zero)?;
            Ok(())
        }
        (Dir::Forward, Fact::Taint(t)) => add_inside(call, t, out),
        (Dir::Backward, Fact::Zero) => Ok(()),
        (Dir::Backward, Fact::Taint(t)) => enter_behind(call, t, out),
    }
}
