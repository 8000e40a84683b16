// Where contexts start. Programs stand below, the problem above.
ghost use Rattle.std.specs.Prelude.{◌≡◌, ◌↔◌, ◌<◌, OnOk, Contains};
ghost use Rattle.clean_base.specs.Lists.{AppendsSet};
ghost use Rattle.clean_base.specs.declared.ids.StmtId.{StmtId};
ghost use Rattle.flow_rules.specs.Code.{IsWhole, StandsIn};
ghost use Rattle.flow_rules.specs.Machine.{after};
ghost use Rattle.flow_rules.specs.Only.{OfEach};
ghost use Rattle.program_code.specs.App.{IsMethod};
ghost use Rattle.taint_problem.specs.Moves.{Ends, StartsIn};

use crate::places::is_thrown;
use access_path::Fact;
use clean_base::{MethodId, StmtId};
use ifds_model::{Context, Dir, Node};
use program_code::Program;
use std::alloc::AllocError;

// Where the method may have ended with the fact.
fn ends<'a>(program: &'a Program, m: MethodId, fact: &Fact) -> &'a [StmtId]
    requires { IsMethod program.now.code m }
    ensures { (s : StmtId) → Contains result.now s ↔ (StandsIn program.now.code s m × Ends program.now.code fact.now s) }
{
    if is_thrown(fact) {
        program.throws(m)
    } else {
        program.returns(m)
    }
}

// Adds the nodes after these statements.
fn add_afters(stmts: &[StmtId], out: &mut Vec<Node>) -> Result<(), AllocError>
    ensures { OnOk result (AppendsSet (OfEach stmts.now (λ s n. n ≡ after s)) out.old.items out.new.items) }
{
    for stmt in stmts {
        out.push(Node {
            stmt: *stmt,
            dir: Dir::Backward,
        })?;
    }
    Ok(())
}

// Adds the nodes at which a backward context starts.
fn add_ends(
    program: &Program,
    m: MethodId,
    fact: &Fact,
    out: &mut Vec<Node>,
) -> Result<(), AllocError>
    requires { IsMethod program.now.code m }
    ensures { OnOk result (AppendsSet (StartsIn program.now.code Dir.Backward m fact.now) out.old.items out.new.items) }
{
    add_afters(ends(program, m, fact), out)
}

// Adds the node at which a forward context starts.
fn add_first(
    program: &Program,
    m: MethodId,
    fact: &Fact,
    out: &mut Vec<Node>,
) -> Result<(), AllocError>
    requires { IsMethod program.now.code m }
    ensures { OnOk result (AppendsSet (StartsIn program.now.code Dir.Forward m fact.now) out.old.items out.new.items) }
{
    out.push(Node {
        stmt: program.first(m),
        dir: Dir::Forward,
    })?;
    Ok(())
}

// Adds the nodes at which a context starts.
pub(crate) fn add_starts(
    program: &Program,
    context: &Context<Fact>,
    out: &mut Vec<Node>,
) -> Result<(), AllocError>
    requires { IsWhole program.now.code }
    ensures { OnOk result (AppendsSet (StartsIn program.now.code context.now.dir context.now.method context.now.fact) out.old.items out.new.items) }
{
    if context.method.0 >= program.methods() {
        return Ok(());
    }
    match context.dir {
        Dir::Forward => add_first(program, context.method, &context.fact, out),
        Dir::Backward => add_ends(program, context.method, &context.fact, out),
    }
}
