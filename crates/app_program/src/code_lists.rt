// The lists of a program's code. Where methods may end and what their calls lead to stand below; programs above.
ghost use Rattle.std.specs.Prelude.{◌≡◌, IfOk, length};
ghost use Rattle.class_table.specs.Methods.{all_methods, stmts_in};
ghost use Rattle.field_table.specs.Numbers.{AreFields};
ghost use Rattle.statement_graph.specs.Statements.{AreStatements};
ghost use Rattle.program_code.specs.Views.{Raises};
ghost use Rattle.app_program.specs.Ends.{AreEnds, AreMethodsOf, Gives, IsReach};
ghost use Rattle.app_program.specs.Gathered.{AreLists};

use crate::calls::reach_of;
use crate::ends::{End, ends_of};
use crate::methods::locals_of;
use class_table::ClassTable;
use clean_base::{Seq, StmtId};
use field_table::FieldTable;
use flat_rows::FlatRows;
use reach_rows::Rows;
use source_sink::Lists;
use statement_graph::{StatementGraph, StatementLists};
use statement_views::{Seen, seen_in};
use std::alloc::{AllocError, Global};

/// The lists of statements, for each method its statements where it may end, and what its open calls lead to.
#[derive(Drop)]
pub struct GraphLists {
    pub statements: StatementLists,
    pub returns: FlatRows<StmtId>,
    pub throws: FlatRows<StmtId>,
    pub closure: Rows,
}

/// These, how statements are seen, and how many locals each method has.
#[derive(Drop)]
pub struct CodeLists {
    pub seen: Seen,
    pub locals: Seq<u32>,
    pub graph: GraphLists,
}

// What is gathered of the graph of statements, which are seen so.
fn lists_of_graph(alloc: Global, table: &ClassTable, seen: &Seen) -> Result<GraphLists, AllocError>
    requires views { length seen.now.views ≡ length (stmts_in table.now) }
    requires targets { length seen.now.targets ≡ length (stmts_in table.now) }
    requires methods { AreMethodsOf table.now seen.now.targets }
    ensures statements { IfOk result (λ g. AreStatements table.now g.statements.firsts g.statements.owners g.statements.succs g.statements.preds) }
    ensures returns { IfOk result (λ g. AreEnds table.now seen.now.views Gives (length (all_methods table.now)) g.returns) }
    ensures throws { IfOk result (λ g. AreEnds table.now seen.now.views Raises (length (all_methods table.now)) g.throws) }
    ensures reach { IfOk result (λ g. IsReach table.now seen.now.targets g.closure) }
{
    let graph = StatementGraph::new(alloc, table)?;
    let returns = ends_of(alloc, &graph, seen.views.as_slice(), End::Returns)?;
    let throws = ends_of(alloc, &graph, seen.views.as_slice(), End::Throws)?;
    let closure = reach_of(alloc, &graph, &seen.targets)?;
    Ok(GraphLists {
        statements: graph.into_lists(),
        returns,
        throws,
        closure,
    })
}

/// The lists of the code of these classes. The fields are theirs.
pub fn lists_of(
    alloc: Global,
    table: &ClassTable,
    lists: &Lists,
    fields: &FieldTable,
) -> Result<CodeLists, AllocError>
    requires { AreFields table.now fields.now }
    ensures { IfOk result (AreLists table.now lists.now) }
{
    let seen = seen_in(alloc, table, lists, fields)?;
    let locals = locals_of(alloc, table)?;
    let graph = lists_of_graph(alloc, table, &seen)?;
    Ok(CodeLists {
        seen,
        locals: Seq::from_vec(locals),
        graph,
    })
}
