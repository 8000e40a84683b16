// What is reached from the nodes of a graph with cycles.
use super::graphs::{graph, is_graph};
use clean_base::Seq;
use clean_base::limits::MOST_METHODS;
use reach_rows::close;
use std::alloc::{AllocError, Global};
use std::test::Fail;

// The nodes that are reached from a node; none where the rows are no graph or the node is none of theirs.
fn reached(alloc: Global, rows: &[Seq<u32>], from: u32) -> Result<Vec<u32>, AllocError> {
    let mut nodes = Vec::new(alloc);
    if !is_graph(rows) || rows.len() > MOST_METHODS || from as usize >= rows.len() {
        return Ok(nodes);
    }
    let closure = close(alloc, rows)?;
    for to in 0..rows.len() as u32 {
        if closure.has(from, to) {
            nodes.push(to)?;
        }
    }
    Ok(nodes)
}

#[test]
fn nodes_are_reached_through_others_and_round_cycles(rt: HostRuntime) -> Result<(), Fail> {
    let none: &[u32] = &[];
    let rows = graph(rt.alloc(), &[&[1], &[2, 0], &[2], &[0], none])?;
    let rows = rows.as_slice();
    let wants: [&[u32]; 5] = [&[0, 1, 2], &[0, 1, 2], &[2], &[0, 1, 2, 3], &[4]];
    for (from, want) in wants.iter().enumerate() {
        assert!(rt;
            reached(rt.alloc(), rows, from as u32)?.as_slice() == *want,
            "from {from}"
        );
    }
    Ok(())
}
