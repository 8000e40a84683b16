// For each method the statements where it may end. The graph and the views of statements stand below; programs above.
ghost use Rattle.std.specs.Prelude.{◌≡◌, ◌↔◌, ◌<◌, ◌+◌, IfOk, IsTrue, OnOk, length};
ghost use Rattle.class_table.specs.Methods.{all_methods, stmts_in};
ghost use Rattle.app_program.specs.Ends.{AreEnds, EndsSo};

use access_path::View;
use clean_base::{MethodId, StmtId};
use flat_rows::FlatRows;
use program_code::raises;
use statement_graph::StatementGraph;
use std::alloc::{AllocError, Global};

/// How a method may end at a statement.
#[derive(Clone, Copy, Debug)]
pub enum End {
    /// It returns.
    Returns,
    /// An exception may leave it.
    Throws,
}

// Whether a method may end so at a statement that is seen so.
fn ends(view: &View, end: End) -> bool
    ensures { IsTrue result ↔ EndsSo end view.now }
{
    match (end, view) {
        (End::Returns, View::Return { .. }) => true,
        (End::Throws, view) => raises(view),
        _ => false,
    }
}

// Adds the statements of a method where it may end so, as the next row.
fn add_method(
    rows: &mut FlatRows<StmtId>,
    graph: &StatementGraph<'_>,
    views: &[View],
    end: End,
    m: MethodId,
) -> Result<(), AllocError>
    requires number { m.0 < length (all_methods graph.now) }
    requires views { length views.now ≡ length (stmts_in graph.now) }
    requires rows { AreEnds graph.now views.now (EndsSo end) m.0 rows.old }
    ensures { OnOk result (AreEnds graph.now views.now (EndsSo end) (m.0 + 1) rows.new) }
{
    rows.open_row()?;
    for s in graph.first(m).0..graph.end(m) {
        if ends(&views[s as usize], end) {
            rows.add(StmtId(s))?;
        }
    }
    Ok(())
}

/// For each method its statements where it may end so, in order.
pub fn ends_of(
    alloc: Global,
    graph: &StatementGraph<'_>,
    views: &[View],
    end: End,
) -> Result<FlatRows<StmtId>, AllocError>
    requires { length views.now ≡ length (stmts_in graph.now) }
    ensures { IfOk result (AreEnds graph.now views.now (EndsSo end) (length (all_methods graph.now))) }
{
    let mut rows = FlatRows::new(alloc);
    for m in 0..graph.methods() {
        add_method(&mut rows, graph, views, end, MethodId(m))?;
    }
    Ok(rows)
}
