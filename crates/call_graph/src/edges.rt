// The graph of the open calls from a method on. Calls and their targets stand below.
ghost use Rattle.std.specs.Prelude.{◌≡◌, ◌↔◌, ◌⊎◌, ◌<◌, ◌^◌, ◌++◌, List, All, Contains, false, length, map, IfNone, IfOk, IfSome, None, OnOk, Some};
ghost use Rattle.std.specs.List.Sorted.{IsStrictlySortedBy};
ghost use Rattle.clean_base.specs.declared.ids.MethodId.{MethodId};
ghost use Rattle.class_table.specs.Methods.{all_methods};
ghost use Rattle.reach_rows.specs.Reaches.{Reaches};
ghost use Rattle.call_graph.specs.Calls.{call_in};
ghost use Rattle.call_graph.specs.Floods.{AreOpenTargets, IsCallAt, IsCallIn, IsMet, IsMore, IsTargetIn, edge_to};
ghost use Rattle.call_graph.specs.Graphs.{Calls, IsCall, IsCallGraph};
ghost use Rattle.call_graph.specs.declared.edges.CallEdge.{CallEdge};
ghost use Rattle.call_graph.specs.declared.edges.CallGraph.{CallGraph};

use crate::calls::in_order;
use crate::known::KnownCalls;
use class_table::ClassTable;
use clean_base::{MethodId, Seq};
use jimple_tree::{Invoke, Rhs, Stmt};
use source_sink::Lists;
use std::alloc::{AllocError, Global};

/// An open call: the statement at a place of the caller's body, and a method that it may come to.
#[derive(Clone, Copy, Debug, PartialEq, Eq, PartialOrd, Ord)]
pub struct CallEdge {
    pub caller: MethodId,
    pub place: u32,
    pub target: MethodId,
}

/// The open calls of the methods that a root reaches by them, and these methods. Both are in order.
#[derive(Debug, Drop)]
pub struct CallGraph {
    pub calls: Seq<CallEdge>,
    pub reached: Seq<MethodId>,
}

/// The call in a statement.
pub fn call_of(stmt: &Stmt) -> Option<&Invoke>
    ensures some { IfSome result (λ call. call_in stmt.now ≡ Some call.now) }
    ensures none { IfNone result (call_in stmt.now ≡ None) }
{
    match stmt {
        Stmt::Call(call) => Some(call),
        Stmt::Assign {
            rhs: Rhs::Call(call),
            ..
        } => Some(call),
        _ => None,
    }
}

// Adds an edge from a place to each of these methods.
fn add_edges(
    calls: &mut Vec<CallEdge>,
    caller: MethodId,
    place: u32,
    targets: &[MethodId],
) -> Result<(), AllocError>
    ensures { OnOk result (calls.new.items ≡ calls.old.items ++ map (edge_to caller place) targets.now) }
{
    for target in targets {
        calls.push(CallEdge {
            caller,
            place,
            target: *target,
        })?;
    }
    Ok(())
}

// Adds the edges of a call at a place.
fn add_targets(
    alloc: Global,
    known: &mut KnownCalls<'_>,
    calls: &mut Vec<CallEdge>,
    caller: MethodId,
    place: u32,
    call: &Invoke,
) -> Result<(), AllocError>
    ensures classes { known.new.classes ≡ known.old.classes }
    ensures lines { known.new.lines ≡ known.old.lines }
    ensures added { OnOk result ((targets : List MethodId) × AreOpenTargets known.old.classes known.old.lines call.now targets × (calls.new.items ≡ calls.old.items ++ map (edge_to caller place) targets)) }
{
    let number = known.know(alloc, call.kind, &call.sig)?;
    let sig = known.at(call.kind, number);
    add_edges(calls, caller, place, sig.targets.as_slice())
}

// Adds the open calls of the statement at a place.
fn add_calls(
    alloc: Global,
    known: &mut KnownCalls<'_>,
    calls: &mut Vec<CallEdge>,
    caller: MethodId,
    place: u32,
    stmt: &Stmt,
) -> Result<(), AllocError>
    ensures classes { known.new.classes ≡ known.old.classes }
    ensures lines { known.new.lines ≡ known.old.lines }
    ensures added { OnOk result ((e : CallEdge) → Contains calls.new.items e ↔ (Contains calls.old.items e ⊎ IsCallAt known.old.classes known.old.lines caller place stmt.now e)) }
{
    match call_of(stmt) {
        Some(call) => add_targets(alloc, known, calls, caller, place, call),
        None => Ok(()),
    }
}

// The open calls of these statements of the caller.
fn calls_in(
    alloc: Global,
    known: &mut KnownCalls<'_>,
    caller: MethodId,
    stmts: &[Stmt],
) -> Result<Vec<CallEdge>, AllocError>
    requires { length stmts.now < 2 ^ 32 }
    ensures classes { known.new.classes ≡ known.old.classes }
    ensures lines { known.new.lines ≡ known.old.lines }
    ensures exact { IfOk result (λ v. (e : CallEdge) → Contains v.items e ↔ IsCallIn known.old.classes known.old.lines caller stmts.now e) }
{
    let mut calls = Vec::new(alloc);
    for (place, stmt) in stmts.iter().enumerate() {
        add_calls(alloc, known, &mut calls, caller, place as u32, stmt)?;
    }
    Ok(calls)
}

// The open calls of a method.
fn calls_of(
    alloc: Global,
    table: &ClassTable,
    known: &mut KnownCalls<'_>,
    caller: MethodId,
) -> Result<Vec<CallEdge>, AllocError>
    requires number { caller.0 < length (all_methods table.now) }
    requires table { known.old.classes ≡ table.now }
    ensures classes { known.new.classes ≡ known.old.classes }
    ensures lines { known.new.lines ≡ known.old.lines }
    ensures exact { IfOk result (λ v. (e : CallEdge) → Contains v.items e ↔ ((e.caller ≡ caller) × IsCall table.now known.old.lines e)) }
    ensures within { IfOk result (λ v. All (λ (e : CallEdge). e.target.0 < length (all_methods table.now)) v.items) }
{
    // The classes have few enough statements for places of 32 bits.
    let _given = table.given();
    match &table.method(caller).body {
        Some(body) => calls_in(alloc, known, caller, body.stmts.as_slice()),
        None => Ok(Vec::new(alloc)),
    }
}

// Meets a method: it is listed where it wasn't met before.
fn meet(order: &mut Vec<MethodId>, met: &mut [bool], m: MethodId) -> Result<(), AllocError>
    requires within { m.0 < length met.old }
    requires met { IsMet order.old.items met.old }
    ensures met { OnOk result (IsMet order.new.items met.new) }
    ensures more { OnOk result (IsMore (λ n. m ≡ n) order.old.items order.new.items) }
{
    if met[m.0 as usize] {
        return Ok(());
    }
    met[m.0 as usize] = true;
    order.push(m)?;
    Ok(())
}

// Meets the targets of these calls.
fn meet_targets(
    order: &mut Vec<MethodId>,
    met: &mut [bool],
    edges: &[CallEdge],
) -> Result<(), AllocError>
    requires within { All (λ (e : CallEdge). e.target.0 < length met.old) edges.now }
    requires met { IsMet order.old.items met.old }
    ensures met { OnOk result (IsMet order.new.items met.new) }
    ensures more { OnOk result (IsMore (IsTargetIn edges.now) order.old.items order.new.items) }
{
    for edge in edges {
        meet(order, met, edge.target)?;
    }
    Ok(())
}

// A mark for each of so many methods, none of which is met.
fn none_met(alloc: Global, count: usize) -> Result<Vec<bool>, AllocError>
    ensures len { IfOk result (λ met. length met.items ≡ count) }
    ensures none { IfOk result (λ met. All (λ b. b ≡ false) met.items) }
{
    vec![in alloc; false; count]
}

// The methods that a root reaches, in the order in which they are met, and their calls.
fn flood(
    alloc: Global,
    table: &ClassTable,
    lists: &Lists,
    root: MethodId,
    met: &mut [bool],
) -> Result<CallGraph, AllocError>
    requires root { root.0 < length (all_methods table.now) }
    requires len { length met.old ≡ length (all_methods table.now) }
    requires none { All (λ b. b ≡ false) met.old }
    ensures reached { IfOk result (λ g. (m : MethodId) → Contains g.reached m ↔ Reaches (Calls table.now lists.now) root m) }
    ensures calls { IfOk result (λ g. (e : CallEdge) → Contains g.calls e ↔ (Reaches (Calls table.now lists.now) root e.caller × IsCall table.now lists.now e)) }
{
    let mut known = KnownCalls::new(alloc, table, lists);
    let mut order = Vec::new(alloc);
    let mut calls = Vec::new(alloc);
    meet(&mut order, met, root)?;
    let mut done = 0;
    while done < order.len() {
        let own = calls_of(alloc, table, &mut known, order[done])?;
        meet_targets(&mut order, met, own.as_slice())?;
        calls.extend_from_slice(own.as_slice())?;
        done += 1;
    }
    Ok(CallGraph {
        calls: Seq::from_vec(calls),
        reached: Seq::from_vec(order),
    })
}

// The edges in order, each once.
fn edges_in_order(edges: Vec<CallEdge>) -> Vec<CallEdge>
    ensures ascending { IsStrictlySortedBy ⟦<CallEdge as Ord>⟧.cmp result.items }
    ensures same { (e : CallEdge) → Contains result.items e ↔ Contains edges.items e }
{
    let mut edges = edges;
    edges.sort_unstable();
    edges.dedup();
    edges
}

/// The graph of the open calls from the root on, which is the only one.
pub fn graph(
    alloc: Global,
    table: &ClassTable,
    lists: &Lists,
    root: MethodId,
) -> Result<CallGraph, AllocError>
    requires { root.0 < length (all_methods table.now) }
    ensures graph { IfOk result (IsCallGraph table.now lists.now root) }
    ensures only { IfOk result (λ g. (other : CallGraph) → IsCallGraph table.now lists.now root other → other ≡ g) }
{
    let mut met = none_met(alloc, table.methods() as usize)?;
    let flooded = flood(alloc, table, lists, root, met.as_mut_slice())?;
    Ok(CallGraph {
        calls: Seq::from_vec(edges_in_order(flooded.calls.into_vec())),
        reached: Seq::from_vec(in_order(flooded.reached.into_vec())),
    })
}
