// How a fact crosses a statement: an inactive taint becomes active where the statement that it waits for is passed. Places
// stand below, steps above.
ghost use Rattle.std.specs.Prelude.{◌↔◌, IsTrue, Contains};
ghost use Rattle.flow_rules.specs.Machine.{Crosses, Wakes};
ghost use Rattle.flow_rules.specs.Own.{IsStmt};
ghost use Rattle.clean_base.specs.declared.ids.MethodId.{MethodId};
ghost use Rattle.program_code.specs.App.{IsMethod};
ghost use Rattle.taint_problem.specs.Moves.{LeadsFrom, RunsIn};

use access_path::{Fact, Taint, Wake, activate};
use clean_base::{MethodId, StmtId};
use program_code::Program;

// Whether open calls lead to the method from one of these.
fn leads_from(program: &Program, from: &[MethodId], to: MethodId) -> bool
    requires from { (m : MethodId) → Contains from.now m → IsMethod program.now.code m }
    requires to { IsMethod program.now.code to }
    ensures { IsTrue result ↔ LeadsFrom program.now.code from.now to }
{
    for m in from {
        if program.closure_has(*m, to) {
            return true;
        }
    }
    false
}

// Whether a statement may run in the methods that another calls.
fn runs_in(program: &Program, s: StmtId, at: StmtId) -> bool
    requires { IsStmt program.now.code s }
    ensures { IsTrue result ↔ RunsIn program.now.code s at }
{
    if at.0 >= program.stmts() {
        return false;
    }
    leads_from(program, program.targets_of(s), program.method_of(at))
}

// Whether crossing the statement passes the one that the taint waits for.
fn wakes(program: &Program, s: StmtId, t: &Taint) -> bool
    requires { IsStmt program.now.code s }
    ensures { IsTrue result ↔ Wakes program.now.code s t.now }
{
    match t.wake {
        Wake::Active => false,
        Wake::Asleep(at) => at == s || runs_in(program, s, at),
    }
}

// The fact once it has crossed the statement.
pub(crate) fn cross(program: &Program, s: StmtId, fact: &Fact) -> Fact
    requires { IsStmt program.now.code s }
    ensures { Crosses program.now.code s fact.now result }
{
    match fact {
        Fact::Taint(t) if wakes(program, s, t) => Fact::Taint(activate(t)),
        _ => *fact,
    }
}
