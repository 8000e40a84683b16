// The aliases that a statement asks for (docs/FLOW-RULES.md, "Aliases"). Paths stand below, the moves of a program above.
ghost use Rattle.std.specs.Prelude.{◌≤◌, OnOk};
ghost use Rattle.clean_base.specs.Lists.{AppendsSet};
ghost use Rattle.flow_rules.specs.Forward.{AsksFor, Triggers};
ghost use Rattle.flow_rules.specs.Only.{IsOnly};

use crate::taints::inside;
use access_path::{Base, Fact, Taint, View, prepend, rebase, sleep};
use clean_base::StmtId;
use flow_rules::{add, becomes, holds, is_argument};
use std::alloc::AllocError;

// The path of which aliases are asked for.
fn asked(view: &View, at: StmtId, t: &Taint, k: u8) -> Option<Taint>
    requires some { 1 ≤ k }
    requires few { k ≤ 8 }
    ensures { IsOnly (AsksFor k view.now at t.now) result }
{
    match view {
        View::Store { base, field, from } if holds(*from, t) => {
            Some(sleep(&rebase(&prepend(t, *field, k), Base::Local(*base)), at))
        }
        View::Call(call) if is_argument(call, t) => becomes(call.receiver, &sleep(&inside(t), at)),
        _ => None,
    }
}

/// Adds the paths whose aliases a statement that is no open call asks for, from the fact before it once that has crossed
/// the statement (docs/FLOW-RULES.md, "Aliases"). `at` is the statement's number, and `k` the limit of a path.
pub fn triggers(
    view: &View,
    at: StmtId,
    fact: &Fact,
    k: u8,
    out: &mut Vec<Fact>,
) -> Result<(), AllocError>
    requires some { 1 ≤ k }
    requires few { k ≤ 8 }
    ensures { OnOk result (AppendsSet (Triggers k view.now at fact.now) out.old.items out.new.items) }
{
    match fact {
        Fact::Zero => Ok(()),
        Fact::Taint(t) => add(asked(view, at, t, k), out),
    }
}
