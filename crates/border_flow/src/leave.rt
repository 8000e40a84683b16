// What leaves a method, at a return and at a throw (docs/FLOW-RULES.md, "Out of a method"). Paths stand below, the moves of
// a program above.
ghost use Rattle.std.specs.Prelude.{◌≡◌, ◌↔◌, IsTrue, OnOk};
ghost use Rattle.clean_base.specs.Lists.{AppendsSet};
ghost use Rattle.access_path.specs.Paths.{rebase};
ghost use Rattle.flow_rules.specs.Border.{Exits, IsShared, Throws};
ghost use Rattle.flow_rules.specs.Locals.{Holds};
ghost use Rattle.flow_rules.specs.Only.{IsOnly};
ghost use Rattle.border_flow.specs.Parts.{Leaves};

use access_path::{Base, Fact, Taint, rebase};
use clean_base::LocalId;
use flow_rules::{add, holds};
use std::alloc::AllocError;

// Whether the caller sees the taint too.
fn is_shared(t: &Taint) -> bool
    ensures { IsTrue result ↔ IsShared t.now.base t.now }
{
    match t.base {
        Base::This => !t.fields.is_empty(),
        Base::Param(_) => !t.fields.is_empty(),
        Base::Static(_) => true,
        _ => false,
    }
}

// What leaves at a return.
fn leaving(value: Option<LocalId>, t: &Taint) -> Option<Taint>
    ensures { IsOnly (Leaves value t.now) result }
{
    if holds(value, t) {
        return Some(rebase(t, Base::Return));
    }
    if is_shared(t) { Some(*t) } else { None }
}

// What is thrown.
fn throwing(value: Option<LocalId>, t: &Taint) -> Option<Taint>
    ensures { IsOnly (λ u. Holds value t.now × (u ≡ rebase Base.Thrown t.now)) result }
{
    if holds(value, t) {
        Some(rebase(t, Base::Thrown))
    } else {
        None
    }
}

/// Adds what leaves the method at a return of this value, which is none where nothing or a literal is returned
/// (docs/FLOW-RULES.md, "Out of a method").
pub fn exits(value: Option<LocalId>, fact: &Fact, out: &mut Vec<Fact>) -> Result<(), AllocError>
    ensures { OnOk result (AppendsSet (Exits value fact.now) out.old.items out.new.items) }
{
    match fact {
        Fact::Zero => {
            out.push(Fact::Zero)?;
            Ok(())
        }
        Fact::Taint(t) => add(leaving(value, t), out),
    }
}

/// Adds what leaves the method at a throw of this value, which is none where it is a literal (docs/FLOW-RULES.md, "Out of a
/// method").
pub fn thrown(value: Option<LocalId>, fact: &Fact, out: &mut Vec<Fact>) -> Result<(), AllocError>
    ensures { OnOk result (AppendsSet (Throws value fact.now) out.old.items out.new.items) }
{
    match fact {
        Fact::Zero => Ok(()),
        Fact::Taint(t) => add(throwing(value, t), out),
    }
}
