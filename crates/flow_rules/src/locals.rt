// Taints and the locals of a statement, and taints added to a list of facts (docs/FLOW-RULES.md, "Rules for paths"). Facts
// and statements stand below, the crates that carry the rules out above.
ghost use Rattle.std.specs.Prelude.{◌↔◌, IsTrue, OnOk, Contains, Some};
ghost use Rattle.clean_base.specs.Lists.{AppendsSet};
ghost use Rattle.access_path.specs.Paths.{IsOf};
ghost use Rattle.flow_rules.specs.Locals.{Holds, Becomes, IsArgument};
ghost use Rattle.flow_rules.specs.Only.{IsOnly, IsIn};

use access_path::{Base, CallView, Fact, Taint, rebase};
use clean_base::LocalId;
use std::alloc::AllocError;

/// Whether the path begins at this local.
pub fn is_of(t: &Taint, x: LocalId) -> bool
    ensures { IsTrue result ↔ IsOf t.now x }
{
    t.base == Base::Local(x)
}

/// Whether the operand is a local at which the path begins. A literal holds nothing.
pub fn holds(operand: Option<LocalId>, t: &Taint) -> bool
    ensures { IsTrue result ↔ Holds operand t.now }
{
    match operand {
        Some(x) => is_of(t, x),
        None => false,
    }
}

/// The path with the same fields at the operand, where that is a local.
pub fn becomes(operand: Option<LocalId>, t: &Taint) -> Option<Taint>
    ensures { IsOnly (Becomes operand t.now) result }
{
    let x = operand?;
    Some(rebase(t, Base::Local(x)))
}

// Whether the local is an argument of the call.
fn takes(call: &CallView, x: LocalId) -> bool
    ensures { IsTrue result ↔ Contains call.now.args (Some x) }
{
    call.args.as_slice().contains(&Some(x))
}

/// Whether an argument of the call is a local at which the path begins.
pub fn is_argument(call: &CallView, t: &Taint) -> bool
    ensures { IsTrue result ↔ IsArgument call.now t.now }
{
    match t.base {
        Base::Local(x) => takes(call, x),
        _ => false,
    }
}

/// Adds the taint, where there is one.
pub fn add(taint: Option<Taint>, out: &mut Vec<Fact>) -> Result<(), AllocError>
    ensures { OnOk result (AppendsSet (IsIn taint) out.old.items out.new.items) }
{
    if let Some(taint) = taint {
        out.push(Fact::Taint(taint))?;
    }
    Ok(())
}
