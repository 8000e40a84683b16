// The leak of a fact at a statement. The flow rules stand below, steps above.
ghost use Rattle.std.specs.Prelude.{OnOk};
ghost use Rattle.clean_base.specs.Lists.{AppendsSet};
ghost use Rattle.access_path.specs.declared.fact.Fact.TheVariants.{Taint as Tainted};
ghost use Rattle.flow_rules.specs.Forward.{Leaks};
ghost use Rattle.flow_rules.specs.Only.{IsOnly};
ghost use Rattle.taint_problem.specs.Moves.{Each, Marks};

use access_path::{Base, CallView, Fact, Taint, View, Wake};
use clean_base::StmtId;
use flow_rules::is_argument;
use ifds_model::{Leak, Move, push_mark};
use std::alloc::AllocError;

// The leak of a taint that a call takes.
fn call_leak(call: &CallView, s: StmtId, t: &Taint) -> Option<Leak>
    ensures { IsOnly (Leaks (View.Call call.now) s (Tainted t.now)) result }
{
    if !call.sink || t.wake != Wake::Active || !is_argument(call, t) {
        return None;
    }
    let Base::Local(base) = t.base else {
        return None;
    };
    Some(Leak {
        sink: s,
        source: t.source,
        base,
        fields: t.fields,
    })
}

// The leak of a fact.
fn leak_of(view: &View, s: StmtId, fact: &Fact) -> Option<Leak>
    ensures { IsOnly (Leaks view.now s fact.now) result }
{
    match (view, fact) {
        (View::Call(call), Fact::Taint(t)) => call_leak(call, s, t),
        _ => None,
    }
}

// Adds the leak.
pub(crate) fn mark(
    view: &View,
    s: StmtId,
    fact: &Fact,
    out: &mut Vec<Move<Fact, Leak>>,
) -> Result<(), AllocError>
    ensures { OnOk result (AppendsSet (Each (Leaks view.now s fact.now) Marks) out.old.items out.new.items) }
{
    if let Some(leak) = leak_of(view, s, fact) {
        push_mark(out, &leak)?;
    }
    Ok(())
}
