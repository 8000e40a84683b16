// For each method those that its open calls may come to, and what they lead to. The graph of statements and the targets of
// calls stand below; programs above.
ghost use Rattle.std.specs.Prelude.{◌≡◌, ◌<◌, IfOk, length, map};
ghost use Rattle.clean_base.specs.declared.ids.MethodId.{MethodId};
ghost use Rattle.class_table.specs.Methods.{all_methods, stmts_in};
ghost use Rattle.app_program.specs.Ends.{AreCalled, AreCalls, AreMethodsOf, IsReach};

use call_graph::in_order;
use clean_base::{MethodId, Seq};
use flat_rows::FlatRows;
use reach_rows::{Rows, close};
use statement_graph::StatementGraph;
use std::alloc::{AllocError, Global};

// The methods that the open calls of a method may come to, in order and each once.
fn called_by(
    alloc: Global,
    graph: &StatementGraph<'_>,
    targets: &FlatRows<MethodId>,
    m: MethodId,
) -> Result<Vec<MethodId>, AllocError>
    requires number { m.0 < length (all_methods graph.now) }
    requires targets { length targets.now ≡ length (stmts_in graph.now) }
    ensures { IfOk result (λ v. AreCalled graph.now targets.now m v.items) }
{
    let mut called = Vec::new(alloc);
    for s in graph.first(m).0..graph.end(m) {
        called.extend_from_slice(targets.row(s as usize))?;
    }
    Ok(in_order(called))
}

// Their numbers.
fn numbers(alloc: Global, methods: &[MethodId]) -> Result<Seq<u32>, AllocError>
    ensures { IfOk result (λ v. v ≡ map (λ (n : MethodId). n.0) methods.now) }
{
    let mut numbers = Vec::new(alloc);
    for method in methods {
        numbers.push(method.0)?;
    }
    Ok(Seq::from_vec(numbers))
}

// For each method the numbers of those that its open calls may come to.
fn calls_of(
    alloc: Global,
    graph: &StatementGraph<'_>,
    targets: &FlatRows<MethodId>,
) -> Result<Vec<Seq<u32>>, AllocError>
    requires { length targets.now ≡ length (stmts_in graph.now) }
    ensures { IfOk result (λ v. AreCalls graph.now targets.now (length (all_methods graph.now)) v.items) }
{
    let mut rows = Vec::new(alloc);
    for m in 0..graph.methods() {
        let called = called_by(alloc, graph, targets, MethodId(m))?;
        rows.push(numbers(alloc, called.as_slice())?)?;
    }
    Ok(rows)
}

/// What open calls lead to from each method.
pub fn reach_of(
    alloc: Global,
    graph: &StatementGraph<'_>,
    targets: &FlatRows<MethodId>,
) -> Result<Rows, AllocError>
    requires count { length targets.now ≡ length (stmts_in graph.now) }
    requires methods { AreMethodsOf graph.now targets.now }
    ensures { IfOk result (IsReach graph.now targets.now) }
{
    // The classes have few enough methods for a closure.
    let _classes = graph.table().given();
    let calls = calls_of(alloc, graph, targets)?;
    close(alloc, calls.as_slice())
}
