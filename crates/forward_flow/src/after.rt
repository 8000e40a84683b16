// The facts after a statement: what it gives, and what it doesn't write over (docs/FLOW-RULES.md, "What a statement gives"
// and "What a statement writes over"). What is given stands below, the moves of a program above.
ghost use Rattle.std.specs.Prelude.{◌≡◌, ◌⊎◌, ◌↔◌, ◌≤◌, IsTrue, OnOk};
ghost use Rattle.clean_base.specs.Lists.{AppendsSet};
ghost use Rattle.access_path.specs.Paths.{IsBelow, StartsWith};
ghost use Rattle.access_path.specs.declared.fact.Base.TheVariants as bases;
ghost use Rattle.flow_rules.specs.Forward.{Overwrites, Over, Stays};
ghost use Rattle.flow_rules.specs.Only.{IsOnly};

use crate::gives::{add_given, from_source};
use access_path::{Base, Fact, Taint, View, Wake, starts_with};
use clean_base::{FieldId, LocalId, StmtId};
use flow_rules::{add, elements, holds, is_of};
use std::alloc::AllocError;

// Whether a store to this field of the local writes over the path.
fn is_stored(t: &Taint, base: LocalId, field: FieldId) -> bool
    ensures { IsTrue result ↔ (((t.now.wake ≡ Wake.Active) × StartsWith t.now (bases.Local base) field) ⊎ IsBelow t.now base field) }
{
    starts_with(t, Base::Local(base), field) && (t.wake == Wake::Active || t.fields.len() >= 2)
}

// Whether the statement writes over the path.
fn overwrites(view: &View, t: &Taint) -> bool
    ensures { IsTrue result ↔ Overwrites view.now t.now }
{
    match view {
        View::Copy { to, .. } => is_of(t, *to),
        View::Kill { to } => is_of(t, *to),
        View::Load { to, .. } => is_of(t, *to),
        View::Mix { to, .. } => is_of(t, *to),
        View::Call(call) => holds(call.result, t),
        View::Store { base, field, .. } => *field != elements() && is_stored(t, *base, *field),
        _ => false,
    }
}

// The taint, where it stays.
fn stays(view: &View, t: &Taint) -> Option<Taint>
    ensures { IsOnly (Stays view.now t.now) result }
{
    if t.base == Base::Thrown || overwrites(view, t) {
        return None;
    }
    Some(*t)
}

// Adds the facts after the statement, of a taint.
fn over_taint(
    view: &View,
    at: StmtId,
    t: &Taint,
    k: u8,
    out: &mut Vec<Fact>,
) -> Result<(), AllocError>
    requires some { 1 ≤ k }
    requires few { k ≤ 8 }
    ensures { OnOk result (AppendsSet (Over k view.now at (Fact.Taint t.now)) out.old.items out.new.items) }
{
    add_given(view, t, k, out)?;
    add(stays(view, t), out)
}

// Adds the facts after the statement, of zero.
fn over_zero(view: &View, at: StmtId, k: u8, out: &mut Vec<Fact>) -> Result<(), AllocError>
    ensures { OnOk result (AppendsSet (Over k view.now at Fact.Zero) out.old.items out.new.items) }
{
    out.push(Fact::Zero)?;
    add(from_source(view, at), out)
}

/// Adds the facts after a statement that is no open call, from the one before it once that has crossed the statement
/// (docs/FLOW-RULES.md, "What a statement gives" and "What a statement writes over"). `at` is the statement's number, and
/// `k` the limit of a path.
pub fn over(
    view: &View,
    at: StmtId,
    fact: &Fact,
    k: u8,
    out: &mut Vec<Fact>,
) -> Result<(), AllocError>
    requires some { 1 ≤ k }
    requires few { k ≤ 8 }
    ensures { OnOk result (AppendsSet (Over k view.now at fact.now) out.old.items out.new.items) }
{
    match fact {
        Fact::Zero => over_zero(view, at, k, out),
        Fact::Taint(t) => over_taint(view, at, t, k, out),
    }
}
