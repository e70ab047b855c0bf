//! The reached nodes with an edge to a node.

ghost use Rattle.std.specs.Prelude.{◌≡◌, ℕ, ◌≢◌, ◌↔◌, IfOk, IsTrue, Contains, length, map};
ghost use Rattle.graph_order.specs.Arrivals.{AreArrivals};
ghost use Rattle.graph_order.specs.Graph.{IsReached, IsMarked};

use crate::graph::{Graph, NodeId};
use crate::lists::{add_to, empty_lists};
use std::alloc::{AllocError, Global};

/// For each node in turn the reached nodes with an edge to it.
pub(crate) fn arrivals(
    alloc: Global,
    g: &Graph,
    reached: &[bool],
) -> Result<Vec<Vec<NodeId>>, AllocError>
    requires reached_size { length reached.now ≡ length g.now.succ }
    requires exact { (n : ℕ) → (IsMarked reached.now n ↔ IsReached g.now n) }
    ensures { IfOk result (λ arrivals. AreArrivals g.now (map (λ l. l.items) arrivals.items)) }
{
    let mut arrivals = empty_lists(alloc, g.count())?;
    for k in 0..g.count() {
        if reached[k as usize] {
            add_to(NodeId(k), g.succ(NodeId(k)), &mut arrivals)?;
        }
    }
    Ok(arrivals)
}

/// Whether two different nodes are among some.
pub(crate) fn has_two(nodes: &[NodeId]) -> bool
    ensures { IsTrue result ↔ ((a : ℕ) × (b : ℕ) × (a ≢ b) × Contains nodes.now a × Contains nodes.now b) }
{
    match nodes.first() {
        Some(&first) => has_other(nodes, first),
        None => false,
    }
}

/// Whether another node is among some.
fn has_other(nodes: &[NodeId], node: NodeId) -> bool
    ensures { IsTrue result ↔ ((a : ℕ) × (a ≢ node) × Contains nodes.now a) }
{
    for &other in nodes {
        if other.0 != node.0 {
            return true;
        }
    }
    false
}
