// What a library call passes on (docs/FLOW-RULES.md, "Library calls"). Paths stand below, the facts after a statement
// above.
ghost use Rattle.std.specs.Prelude.{◌⊎◌, ◌↔◌, [], ◌∷◌, IsTrue, OnOk};
ghost use Rattle.clean_base.specs.Lists.{AppendsSet};
ghost use Rattle.access_path.specs.Paths.{inside, with_fields};
ghost use Rattle.flow_rules.specs.Forward.{Library};
ghost use Rattle.flow_rules.specs.Locals.{Becomes, Holds, IsArgument};
ghost use Rattle.flow_rules.specs.Only.{IsOnly};

use crate::taints::{bare, inside, said};
use access_path::{CallView, Fact, Taint};
use flow_rules::{add, becomes, holds, is_argument};
use std::alloc::AllocError;

// Whether an argument or the receiver is a local that the taint is of.
fn reaches_result(call: &CallView, t: &Taint) -> bool
    ensures { IsTrue result ↔ (IsArgument call.now t.now ⊎ Holds call.now.receiver t.now) }
{
    is_argument(call, t) || holds(call.receiver, t)
}

// What a library call passes to its result.
fn to_result(call: &CallView, t: &Taint) -> Option<Taint>
    ensures { IsOnly (λ u. (IsArgument call.now t.now ⊎ Holds call.now.receiver t.now) × Becomes call.now.result (with_fields [] t.now) u) result }
{
    if reaches_result(call, t) {
        becomes(call.result, &bare(t))
    } else {
        None
    }
}

// What a library call passes into its receiver.
fn to_receiver(call: &CallView, t: &Taint) -> Option<Taint>
    ensures { IsOnly (λ u. IsArgument call.now t.now × Becomes call.now.receiver (with_fields (inside ∷ []) t.now) u) result }
{
    if is_argument(call, t) {
        becomes(call.receiver, &inside(t))
    } else {
        None
    }
}

/// Adds what a library call passes on of the fact before it (docs/FLOW-RULES.md, "Library calls").
pub fn library(call: &CallView, fact: &Fact, out: &mut Vec<Fact>) -> Result<(), AllocError>
    ensures { OnOk result (AppendsSet (Library call.now fact.now) out.old.items out.new.items) }
{
    let Fact::Taint(t) = fact else {
        return Ok(());
    };
    add(said(to_result(call, t)), out)?;
    add(said(to_receiver(call, t)), out)
}
