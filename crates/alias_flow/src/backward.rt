// The facts before a statement, of an inactive taint after it (docs/FLOW-RULES.md, "Before a statement"). Paths stand below,
// the moves of a program above.
ghost use Rattle.std.specs.Prelude.{◌↔◌, ◌≤◌, IsTrue, OnOk};
ghost use Rattle.clean_base.specs.declared.ids.FieldId.{FieldId};
ghost use Rattle.clean_base.specs.Lists.{AppendsSet};
ghost use Rattle.access_path.specs.Paths.{IsBelow, strip};
ghost use Rattle.access_path.specs.declared.fact.Base.TheVariants as bases;
ghost use Rattle.flow_rules.specs.Backward.{ComesFrom, Ends, Remains, Under};
ghost use Rattle.flow_rules.specs.Locals.{Sleeps, Becomes};
ghost use Rattle.flow_rules.specs.Only.{IsOnly};

use access_path::{Base, Fact, Taint, View, prepend, rebase, starts_with, strip};
use clean_base::{FieldId, LocalId};
use flow_rules::{add, becomes, elements, holds, is_of};
use std::alloc::AllocError;

// Whether the path goes on below this field of the local.
fn is_below(t: &Taint, base: LocalId, field: FieldId) -> bool
    ensures { IsTrue result ↔ IsBelow t.now base field }
{
    starts_with(t, Base::Local(base), field) && t.fields.len() >= 2
}

// What a store put below its field.
fn stored(base: LocalId, field: FieldId, from: Option<LocalId>, t: &Taint) -> Option<Taint>
    ensures { IsOnly (λ u. IsBelow t.now base field × Becomes from (strip t.now) u) result }
{
    if is_below(t, base, field) {
        becomes(from, &strip(t))
    } else {
        None
    }
}

// The path from which what the statement wrote came.
fn comes_from(view: &View, t: &Taint, k: u8) -> Option<Taint>
    requires some { 1 ≤ k }
    requires few { k ≤ 8 }
    ensures { IsOnly (ComesFrom k view.now t.now) result }
{
    match view {
        View::Copy { to, from } if is_of(t, *to) => Some(rebase(t, *from)),
        View::Load { to, base, field } if is_of(t, *to) => {
            Some(rebase(&prepend(t, *field, k), Base::Local(*base)))
        }
        View::Store { base, field, from } => stored(*base, *field, *from, t),
        View::StaticStore { field, from } if t.base == Base::Static(*field) => becomes(*from, t),
        View::Return { value } if t.base == Base::Return => becomes(*value, t),
        View::Throw { value } if t.base == Base::Thrown => becomes(*value, t),
        _ => None,
    }
}

// Whether the path doesn't hold before the statement.
fn ends(view: &View, t: &Taint) -> bool
    ensures { IsTrue result ↔ Ends view.now t.now }
{
    match view {
        View::Copy { to, .. } => is_of(t, *to),
        View::Kill { to } => is_of(t, *to),
        View::Load { to, .. } => is_of(t, *to),
        View::Mix { to, .. } => is_of(t, *to),
        View::Call(call) => holds(call.result, t),
        View::Store { base, field, .. } => *field != elements() && is_below(t, *base, *field),
        View::Return { .. } => t.base == Base::Return,
        _ => false,
    }
}

// The path, where it is the same before the statement.
fn remains(view: &View, t: &Taint) -> Option<Taint>
    ensures { IsOnly (Remains view.now t.now) result }
{
    if t.base == Base::Thrown || ends(view, t) {
        return None;
    }
    Some(*t)
}

/// Adds the facts before a statement, of an inactive taint after it (docs/FLOW-RULES.md, "Before a statement"). `k` is the
/// limit of a path. Open calls count as all others here: what the called methods do is asked of `border_flow`.
pub fn under(view: &View, fact: &Fact, k: u8, out: &mut Vec<Fact>) -> Result<(), AllocError>
    requires some { 1 ≤ k }
    requires few { k ≤ 8 }
    requires sleeps { Sleeps fact.now }
    ensures { OnOk result (AppendsSet (Under k view.now fact.now) out.old.items out.new.items) }
{
    let Fact::Taint(t) = fact else {
        return Ok(());
    };
    add(comes_from(view, t, k), out)?;
    add(remains(view, t), out)
}
