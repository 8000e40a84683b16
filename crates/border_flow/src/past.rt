// What passes an open call (docs/FLOW-RULES.md, "Past a call"). Paths stand below, the moves of a program above.
ghost use Rattle.std.specs.Prelude.{OnOk};
ghost use Rattle.clean_base.specs.Lists.{AppendsSet};
ghost use Rattle.flow_rules.specs.Border.{Passes};
ghost use Rattle.flow_rules.specs.Forward.{Stays};
ghost use Rattle.flow_rules.specs.Only.{IsOnly};

use access_path::{Base, CallView, Fact, Taint, View};
use flow_rules::{add, holds};
use std::alloc::AllocError;

// The taint, where it passes the call.
fn passing(call: &CallView, t: &Taint) -> Option<Taint>
    ensures { IsOnly (Stays (View.Call call.now) t.now) result }
{
    if t.base == Base::Thrown || holds(call.result, t) {
        return None;
    }
    Some(*t)
}

/// Adds what holds after an open call whatever it calls, of the fact before it once that has crossed the call
/// (docs/FLOW-RULES.md, "Past a call").
pub fn past_call(call: &CallView, fact: &Fact, out: &mut Vec<Fact>) -> Result<(), AllocError>
    ensures { OnOk result (AppendsSet (Passes call.now fact.now) out.old.items out.new.items) }
{
    match fact {
        Fact::Zero => {
            out.push(Fact::Zero)?;
            Ok(())
        }
        Fact::Taint(t) => add(passing(call, t), out),
    }
}
