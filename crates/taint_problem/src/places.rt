// What stands where in a program, also for numbers that aren't the program's. Programs stand below, moves above.
ghost use Rattle.std.specs.Prelude.{◌≡◌, ◌↔◌, Contains, IsTrue, IfSome, IfNone};
ghost use Rattle.flow_rules.specs.Code.{IsWhole, Stands, Leads, method_of};
ghost use Rattle.flow_rules.specs.Locals.{IsThrown, Sleeps};
ghost use Rattle.flow_rules.specs.Machine.{IsOpen, IsPlain};
ghost use Rattle.flow_rules.specs.Own.{IsStmt};
ghost use Rattle.access_path.specs.declared.view.View.{View};
ghost use Rattle.clean_base.specs.declared.ids.StmtId.{StmtId};
ghost use Rattle.taint_problem.specs.Moves.{IsNear, Admits};

use access_path::{Base, CallView, Fact, View, Wake};
use clean_base::{MethodId, StmtId};
use ifds_model::Dir;
use program_code::Program;

// Whether the fact is an exception's, on its way to a handler.
pub(crate) fn is_thrown(fact: &Fact) -> bool
    ensures { IsTrue result ↔ IsThrown fact.now }
{
    match fact {
        Fact::Zero => false,
        Fact::Taint(t) => t.base == Base::Thrown,
    }
}

// Whether the fact is an inactive taint.
pub(crate) fn sleeps(fact: &Fact) -> bool
    ensures { IsTrue result ↔ Sleeps fact.now }
{
    match fact {
        Fact::Zero => false,
        Fact::Taint(t) => t.wake != Wake::Active,
    }
}

// The open call that the statement is.
pub(crate) fn open_call(view: &View) -> Option<&CallView>
    ensures some { IfSome result (λ call. IsOpen view.now call.now) }
    ensures none { IfNone result (IsPlain view.now) }
{
    match view {
        View::Call(call) if call.is_open => Some(call),
        _ => None,
    }
}

// The statement with this number.
pub(crate) fn view_at(program: &Program, s: StmtId) -> Option<&View>
    ensures some { IfSome result (λ view. Stands program.now.code s view.now) }
    ensures none { IfNone result ((view : View) → Stands program.now.code s view → ⊥) }
{
    if s.0 < program.stmts() {
        Some(program.view(s))
    } else {
        None
    }
}

// The method of the statement; a number beyond the statements counts as the root's.
pub(crate) fn method_of(program: &Program, s: StmtId) -> MethodId
    requires { IsWhole program.now.code }
    ensures { result ≡ method_of program.now.code s }
{
    if s.0 < program.stmts() {
        program.method_of(s)
    } else {
        program.root()
    }
}

fn is_same(m: MethodId, n: MethodId) -> bool
    ensures { IsTrue result ↔ (m ≡ n) }
{
    m == n
}

// Whether open calls lead from the one method to the other. From and to a number that isn't a method's none lead.
pub(crate) fn leads(program: &Program, m: MethodId, n: MethodId) -> bool
    requires { IsWhole program.now.code }
    ensures { IsTrue result ↔ Leads program.now.code m n }
{
    let count = program.methods();
    if m.0 < count && n.0 < count {
        program.closure_has(m, n)
    } else {
        is_same(m, n)
    }
}

// The statements next to this one, on the way ahead or behind.
pub(crate) fn near(program: &Program, dir: Dir, s: StmtId) -> &[StmtId]
    requires { IsStmt program.now.code s }
    ensures are { (q : StmtId) → Contains result.now q ↔ IsNear program.now.code dir s q }
    ensures stmts { (q : StmtId) → Contains result.now q → IsStmt program.now.code q }
{
    match dir {
        Dir::Forward => program.succs(s),
        Dir::Backward => program.preds(s),
    }
}

// Whether an exception may come to the statement this way.
pub(crate) fn admits(program: &Program, dir: Dir, q: StmtId) -> bool
    requires { IsStmt program.now.code q }
    ensures { IsTrue result ↔ Admits program.now.code dir q }
{
    match dir {
        Dir::Forward => program.is_catch(q),
        Dir::Backward => program.may_throw(q),
    }
}
