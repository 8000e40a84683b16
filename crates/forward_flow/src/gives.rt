// What a statement gives: from zero, and from a taint (docs/FLOW-RULES.md, "What a statement gives"). Library calls stand
// below, the facts after a statement above.
ghost use Rattle.std.specs.Prelude.{◌≡◌, ◌⊎◌, ◌≤◌, OnOk};
ghost use Rattle.clean_base.specs.Lists.{AppendsSet};
ghost use Rattle.access_path.specs.Paths.{IsOf, IsBare, StartsWith, rebase, strip};
ghost use Rattle.access_path.specs.declared.fact.Base.TheVariants as bases;
ghost use Rattle.access_path.specs.declared.view.CallView.{CallView};
ghost use Rattle.flow_rules.specs.Forward.{FromSource, Gives};
ghost use Rattle.flow_rules.specs.Locals.{OnTaints, Says};
ghost use Rattle.flow_rules.specs.Only.{IsOnly};

use crate::calls::library;
use crate::taints::said;
use access_path::{Base, Fact, Taint, View, Wake, prepend, rebase, starts_with, strip};
use clean_base::{FieldId, Fields, LocalId, StmtId};
use flow_rules::{add, holds, is_of};
use std::alloc::AllocError;

// The taint of a source's result.
pub(crate) fn from_source(view: &View, at: StmtId) -> Option<Taint>
    ensures { IsOnly (FromSource view.now at) result }
{
    match view {
        View::Call(call) if call.source => call.result.map(|local| Taint {
            source: at,
            base: Base::Local(local),
            fields: Fields::new(),
            wake: Wake::Active,
        }),
        _ => None,
    }
}

// What a load gives.
fn loaded(to: LocalId, base: LocalId, field: FieldId, t: &Taint) -> Option<Taint>
    ensures { IsOnly (λ u. (StartsWith t.now (bases.Local base) field × (u ≡ rebase (bases.Local to) (strip t.now))) ⊎ (IsOf t.now base × IsBare t.now × (u ≡ rebase (bases.Local to) t.now))) result }
{
    if starts_with(t, Base::Local(base), field) {
        Some(rebase(&strip(t), Base::Local(to)))
    } else if is_of(t, base) && t.fields.is_empty() {
        Some(rebase(t, Base::Local(to)))
    } else {
        None
    }
}

// What any other statement gives.
fn given(view: &View, t: &Taint, k: u8) -> Option<Taint>
    requires some { 1 ≤ k }
    requires few { k ≤ 8 }
    requires no_call { (call : CallView) → view.now ≡ View.Call call → ⊥ }
    ensures { IsOnly (Gives k view.now t.now) result }
{
    match view {
        View::Copy { to, from } if t.base == *from => Some(rebase(t, Base::Local(*to))),
        View::Load { to, base, field } => loaded(*to, *base, *field, t),
        View::Store { base, field, from } if holds(*from, t) => {
            Some(rebase(&prepend(t, *field, k), Base::Local(*base)))
        }
        View::StaticStore { field, from } if holds(*from, t) => {
            Some(rebase(t, Base::Static(*field)))
        }
        View::Mix { to, left, right }
            if t.fields.is_empty() && (holds(*left, t) || holds(*right, t)) => {
            Some(rebase(t, Base::Local(*to)))
        }
        View::Throw { value } if holds(*value, t) => Some(rebase(t, Base::Thrown)),
        _ => None,
    }
}

// Adds what the statement gives of a taint.
pub(crate) fn add_given(
    view: &View,
    t: &Taint,
    k: u8,
    out: &mut Vec<Fact>,
) -> Result<(), AllocError>
    requires some { 1 ≤ k }
    requires few { k ≤ 8 }
    ensures { OnOk result (AppendsSet (OnTaints (λ a u. Gives k view.now a u × Says u) (Fact.Taint t.now)) out.old.items out.new.items) }
{
    if let View::Call(call) = view {
        return library(call, &Fact::Taint(*t), out);
    }
    add(said(given(view, t, k)), out)
}
