// Graphs with one order, and graphs with cycles.
use super::graphs::{graph, is_graph};
use clean_base::Seq;
use reach_rows::{OrderStop, order};
use std::alloc::{AllocError, Global};
use std::test::Fail;

// So many nodes, each of which steps to the next.
fn chain(alloc: Global, count: u32) -> Result<Vec<Seq<u32>>, AllocError> {
    let mut rows = Vec::new(alloc);
    for node in 0..count {
        let mut row = Vec::new(alloc);
        if node < count - 1 {
            row.push(node + 1)?;
        }
        rows.push(Seq::from_vec(row))?;
    }
    Ok(rows)
}

/// What `order` answers.
#[derive(Debug, Drop)]
enum Answer {
    Order(Vec<u32>),
    Cycle(u32),
    OutOfMemory,
    /// The rows are no graph.
    NoGraph,
}

fn answered(alloc: Global, rows: &[Seq<u32>]) -> Answer {
    if !is_graph(rows) || rows.len() > 1_000_000 {
        return Answer::NoGraph;
    }
    match order(alloc, rows) {
        Ok(nodes) => Answer::Order(nodes),
        Err(OrderStop::Cycle(node)) => Answer::Cycle(node),
        Err(OrderStop::OutOfMemory) => Answer::OutOfMemory,
    }
}

fn is_order(answer: &Answer, want: &[u32]) -> bool {
    match answer {
        Answer::Order(nodes) => nodes.as_slice() == want,
        _ => false,
    }
}

fn is_cycle(answer: &Answer, want: u32) -> bool {
    match answer {
        Answer::Cycle(node) => *node == want,
        _ => false,
    }
}

#[test]
fn nodes_stand_behind_their_rows(rt: HostRuntime) -> Result<(), Fail> {
    let none: &[u32] = &[];
    let rows = graph(rt.alloc(), &[&[2, 1], none, &[1]])?;
    assert!(rt; is_order(&answered(rt.alloc(), rows.as_slice()), &[1, 2, 0]));
    let rows = graph(rt.alloc(), &[&[3], &[0, 2, 3, 2], &[0, 3], none])?;
    assert!(rt; is_order(&answered(rt.alloc(), rows.as_slice()), &[3, 0, 2, 1]));
    let rows = graph(rt.alloc(), &[])?;
    assert!(rt; is_order(&answered(rt.alloc(), rows.as_slice()), &[]));
    Ok(())
}

#[test]
fn the_first_node_on_a_cycle_is_named(rt: HostRuntime) -> Result<(), Fail> {
    let none: &[u32] = &[];
    let rows = graph(rt.alloc(), &[&[2], &[1], &[1, 3], &[2]])?;
    assert!(rt; is_cycle(&answered(rt.alloc(), rows.as_slice()), 1));
    let rows = graph(rt.alloc(), &[&[3], none, &[3], &[1, 4], &[5], &[2]])?;
    assert!(rt; is_cycle(&answered(rt.alloc(), rows.as_slice()), 2));
    Ok(())
}

// A path as long as this is followed with no call for each node.
#[test]
fn a_long_chain_has_an_order(rt: HostRuntime) -> Result<(), Fail> {
    let rows = chain(rt.alloc(), 200_000)?;
    match answered(rt.alloc(), rows.as_slice()) {
        Answer::Order(nodes) => {
            assert_eq!(rt; nodes.len(), 200_000);
            assert_eq!(rt; nodes.first().copied(), Some(199_999));
            assert_eq!(rt; nodes.last().copied(), Some(0));
        }
        other => {
            assert!(rt; false, "{other:?}");
        }
    }
    Ok(())
}
