//! Worked graphs, and large ones.

ghost use Rattle.std.specs.Prelude.{◌≡◌, ◌^◌, ◌<◌, length, IfOk};

use graph_order::{Graph, GraphFault, NodeId, OrderFault, loops, reach, topo_order};
use std::alloc::{AllocError, Global};
use std::test::Fail;

/// The successors of each node in turn.
fn lists_of(alloc: Global, lists: &[&[u32]]) -> Result<Vec<Vec<NodeId>>, AllocError>
    ensures { IfOk result (λ made. length made.items ≡ length lists.now) }
{
    let mut made = Vec::new(alloc);
    for list in lists {
        let mut nodes = Vec::new(alloc);
        for n in *list {
            nodes.push(NodeId(*n))?;
        }
        made.push(nodes)?;
    }
    Ok(made)
}

/// From each node edges to the ones that stand so many places after it, around the end.
fn circle(alloc: Global, count: u32, places: &[u32]) -> Result<Vec<Vec<NodeId>>, AllocError>
    requires { 0 < count }
    ensures { IfOk result (λ made. length made.items ≡ count) }
{
    let mut made = Vec::new(alloc);
    for k in 0..count {
        let mut nodes = Vec::new(alloc);
        for place in places {
            nodes.push(NodeId(k.wrapping_add(*place) % count))?;
        }
        made.push(nodes)?;
    }
    Ok(made)
}

/// From each node an edge to the next, and from the last one to the first of so many at the end.
fn line(alloc: Global, count: u32, closed: u32) -> Result<Vec<Vec<NodeId>>, AllocError>
    requires few { count < 2 ^ 30 }
    ensures { IfOk result (λ made. length made.items ≡ count) }
{
    let mut made = Vec::new(alloc);
    for k in 0..count {
        let mut nodes = Vec::new(alloc);
        if k + 1 < count {
            nodes.push(NodeId(k + 1))?;
        } else if closed > 0 {
            nodes.push(NodeId(count.wrapping_sub(closed)))?;
        }
        made.push(nodes)?;
    }
    Ok(made)
}

#[test]
fn the_first_bad_node(rt: HostRuntime) -> Result<(), Fail> {
    let alloc = rt.alloc();
    for (entry, want) in [(0, 1), (1, 1), (7, 7)] {
        let made = Graph::new(alloc, NodeId(entry), lists_of(alloc, &[&[0, 1]])?);
        assert!(rt;
            made.err() == Some(GraphFault::BadNode(NodeId(want))),
            "entry {entry}"
        );
    }
    let made = Graph::new(
        alloc,
        NodeId(1),
        lists_of(alloc, &[&[1], &[0, 2, 9], &[8]])?,
    );
    assert!(rt; made.err() == Some(GraphFault::BadNode(NodeId(9))));
    let made = Graph::new(alloc, NodeId(0), lists_of(alloc, &[])?);
    assert!(rt; made.err() == Some(GraphFault::BadNode(NodeId(0))));
    Ok(())
}

#[test]
fn what_the_entry_reaches(rt: HostRuntime) -> Result<(), Fail> {
    let alloc = rt.alloc();
    let lists = lists_of(alloc, &[&[], &[2, 3], &[1], &[], &[0, 3, 4]])?;
    let graph = Graph::new(alloc, NodeId(1), lists).map_err(|_| "no graph")?;
    assert!(rt; graph.entry() == NodeId(1) && graph.count() == 5);
    assert!(rt; graph.succ(NodeId(1)) == [NodeId(2), NodeId(3)].as_slice());
    let reached = reach(alloc, &graph)?;
    assert!(rt; reached.as_slice() == [false, true, true, true, false].as_slice());
    Ok(())
}

#[test]
fn orders_of_small_graphs(rt: HostRuntime) -> Result<(), Fail> {
    let alloc = rt.alloc();
    // Lists of successors, and the order from node 0 on.
    let rows: [(&[&[u32]], &[NodeId]); 5] = [
        (&[&[]], &[NodeId(0)]),
        (&[&[2], &[2], &[]], &[NodeId(0), NodeId(2)]),
        (
            &[&[3], &[], &[1], &[2, 1]],
            &[NodeId(0), NodeId(3), NodeId(2), NodeId(1)],
        ),
        // Two arms that meet: each stands together, the first successor's before the other's.
        (
            &[&[1, 3], &[2], &[5], &[4], &[5], &[]],
            &[
                NodeId(0),
                NodeId(1),
                NodeId(2),
                NodeId(3),
                NodeId(4),
                NodeId(5),
            ],
        ),
        // A cycle that isn't reached.
        (&[&[], &[2], &[1]], &[NodeId(0)]),
    ];
    for (lists, want) in &rows {
        let graph = Graph::new(alloc, NodeId(0), lists_of(alloc, lists)?).map_err(|_| "no graph")?;
        let order = topo_order(alloc, &graph).map_err(|_| "no order")?;
        assert!(rt; order.as_slice() == *want);
    }
    Ok(())
}

#[test]
fn cycles_of_small_graphs(rt: HostRuntime) -> Result<(), Fail> {
    let alloc = rt.alloc();
    // Lists of successors, and the edges of which one is told.
    let rows: [(&[&[u32]], &[(u32, u32)]); 3] = [
        (&[&[1], &[0]], &[(0, 1), (1, 0)]),
        (&[&[0]], &[(0, 0)]),
        (&[&[3, 1], &[2], &[3], &[2]], &[(2, 3), (3, 2)]),
    ];
    for (lists, edges) in &rows {
        let graph = Graph::new(alloc, NodeId(0), lists_of(alloc, lists)?).map_err(|_| "no graph")?;
        let fault = topo_order(alloc, &graph).err();
        assert!(rt;
            edges.iter().any(|(a, b)| fault == Some(OrderFault::Cyclic(NodeId(*a), NodeId(*b))))
        );
    }
    Ok(())
}

#[test]
fn the_loops_of_small_graphs(rt: HostRuntime) -> Result<(), Fail> {
    let alloc = rt.alloc();
    // Lists of successors, and the members, heads and exits of the only part.
    let rows: [(&[&[u32]], &[NodeId], &[NodeId], &[NodeId]); 3] = [
        (
            &[&[1], &[2], &[1, 3], &[]],
            &[NodeId(1), NodeId(2)],
            &[NodeId(1)],
            &[NodeId(3)],
        ),
        (
            &[&[1], &[2], &[2, 3], &[1, 4], &[]],
            &[NodeId(1), NodeId(2), NodeId(3)],
            &[NodeId(1), NodeId(2)],
            &[NodeId(4)],
        ),
        (&[&[0]], &[NodeId(0)], &[NodeId(0)], &[]),
    ];
    for (lists, members, heads, exits) in &rows {
        let graph = Graph::new(alloc, NodeId(0), lists_of(alloc, lists)?).map_err(|_| "no graph")?;
        let found = loops(alloc, &graph)?;
        assert!(rt; found.parts.len() == 1);
        for part in &found.parts {
            assert!(rt; part.members.as_slice() == *members);
            assert!(rt; part.heads.as_slice() == *heads);
            assert!(rt; part.exits.as_slice() == *exits);
        }
    }
    Ok(())
}

#[test]
fn what_large_graphs_reach(rt: HostRuntime) -> Result<(), Fail> {
    let alloc = rt.alloc();
    // A cycle, one against the numbers, and one with five more edges from each node.
    for places in [&[1][..], &[65_535], &[1, 2, 3, 5, 7, 65_535]] {
        let lists = circle(alloc, 65_536, places)?;
        let graph = Graph::new(alloc, NodeId(9), lists).map_err(|_| "no graph")?;
        assert!(rt; reach(alloc, &graph)?.iter().all(|r| *r));
    }
    // Two cycles apart from each other.
    let graph = Graph::new(alloc, NodeId(3), circle(alloc, 65_536, &[2])?).map_err(|_| "no graph")?;
    assert_eq!(rt;
        reach(alloc, &graph)?.iter().filter(|r| **r).count(),
        32_768
    );
    Ok(())
}

#[test]
fn what_a_line_reaches(rt: HostRuntime) -> Result<(), Fail> {
    let alloc = rt.alloc();
    let graph = Graph::new(alloc, NodeId(9), line(alloc, 65_536, 0)?).map_err(|_| "no graph")?;
    assert_eq!(rt;
        reach(alloc, &graph)?.iter().filter(|r| **r).count(),
        65_527
    );
    Ok(())
}

#[test]
fn orders_of_large_graphs(rt: HostRuntime) -> Result<(), Fail> {
    let alloc = rt.alloc();
    let graph = Graph::new(alloc, NodeId(9), line(alloc, 65_536, 0)?).map_err(|_| "no graph")?;
    let order = topo_order(alloc, &graph).map_err(|_| "no order")?;
    assert!(rt; order.len() == 65_527 && order.first() == Some(&NodeId(9)));
    let graph = Graph::new(alloc, NodeId(9), circle(alloc, 65_536, &[1])?).map_err(|_| "no graph")?;
    assert!(rt; matches!(topo_order(alloc, &graph), Err(OrderFault::Cyclic(_, _))));
    Ok(())
}

#[test]
fn loops_of_large_graphs(rt: HostRuntime) -> Result<(), Fail> {
    let alloc = rt.alloc();
    // One cycle of all nodes, and a line.
    for (closed, parts) in [(65_536, 1), (0, 0)] {
        let graph = Graph::new(alloc, NodeId(9), line(alloc, 65_536, closed)?).map_err(
            |_| "no graph",
        )?;
        let found = loops(alloc, &graph)?;
        assert!(rt; found.parts.len() == parts);
        for part in &found.parts {
            assert!(rt;
                part.members.len() == 65_536 && part.heads.len() == 1 && part.exits.is_empty()
            );
        }
    }
    Ok(())
}
