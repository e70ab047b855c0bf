//! The order of the reached nodes along their edges.

ghost use Rattle.std.specs.Prelude.{ℕ, ◌<◌, All, IfSome, IfNone, MatchResult, Contains, length};
ghost use Rattle.graph_order.specs.Graph.{IsMarked};
ghost use Rattle.graph_order.specs.Order.{IsTopologicalOrder, HasNoOrder};
ghost use Rattle.graph_order.specs.Finish.{FindsBack};

use crate::finish::finish_order;
use crate::graph::{Graph, NodeId};
use std::alloc::{AllocError, Global};

/// Why the reached nodes have no order along their edges.
#[derive(Clone, Copy, Debug, PartialEq, Eq)]
pub enum OrderFault {
    /// An edge, by where it begins and ends, lies on a cycle that the entry reaches.
    Cyclic(NodeId, NodeId),
    /// Memory was refused.
    Memory,
}

impl From<AllocError> for OrderFault {
    ghost use Rattle.std.specs.Prelude.{◌≡◌};
    ghost use Rattle.graph_order.specs.declared.order.OrderFault.TheVariants.{Memory};

    ghost from_gives = { λ _ fault. fault ≡ Memory };

    fn from(_: AllocError) -> OrderFault {
        OrderFault::Memory
    }
}

/// The reached nodes, each once, in an order in which each edge goes forward; the entry is the first.
///
/// The nodes stand as a depth-first walk leaves them, the last one first: what is reached by one
/// successor of a node alone stands together, and the first successor's before the next one's.
pub fn topo_order(alloc: Global, g: &Graph) -> Result<Vec<NodeId>, OrderFault>
    ensures { MatchResult result (λ order. IsTopologicalOrder g.now order.items) (HasNoOrder g.now) }
{
    let mut order = finish_order(alloc, g)?;
    find_back(alloc, g, &order)?;
    order.reverse();
    Ok(order)
}

/// Looks for an edge from one of some nodes to a node that doesn't stand before it.
fn find_back(alloc: Global, g: &Graph, order: &[NodeId]) -> Result<(), OrderFault>
    requires { All (λ n. n < length g.now.succ) order.now }
    ensures { FindsBack g.now order.now result }
{
    let mut passed = vec![in alloc; false; g.count() as usize]?;
    for &node in order {
        if let Some(next) = first_unmarked(g.succ(node), &passed) {
            return Err(OrderFault::Cyclic(node, next));
        }
        passed[node.0 as usize] = true;
    }
    Ok(())
}

/// The first of some nodes that has no mark.
fn first_unmarked(nodes: &[NodeId], marks: &[bool]) -> Option<NodeId>
    requires { All (λ n. n < length marks.now) nodes.now }
    ensures found { IfSome result (λ n. Contains nodes.now n × (IsMarked marks.now n → ⊥)) }
    ensures none { IfNone result ((n : ℕ) → Contains nodes.now n → IsMarked marks.now n) }
{
    for &node in nodes {
        if !marks[node.0 as usize] {
            return Some(node);
        }
    }
    None
}
