//! Lists of nodes.

ghost use Rattle.std.specs.Prelude.{◌≡◌, ◌<◌, ◌↔◌, All, IfOk, OnOk, IsTrue, Contains, length, map};
ghost use Rattle.graph_order.specs.Arrivals.{AddsTo};

use crate::graph::NodeId;
use std::alloc::{AllocError, Global};

/// So many empty lists.
pub(crate) fn empty_lists(alloc: Global, count: u32) -> Result<Vec<Vec<NodeId>>, AllocError>
    ensures len { IfOk result (λ lists. length lists.items ≡ count) }
    ensures empty { IfOk result (λ lists. All (λ l. length l.items ≡ 0) lists.items) }
{
    let mut lists = Vec::new(alloc);
    for _ in 0..count {
        lists.push(Vec::new(alloc))?;
    }
    Ok(lists)
}

/// Adds a node to the lists of some others.
pub(crate) fn add_to(
    from: NodeId,
    targets: &[NodeId],
    lists: &mut [Vec<NodeId>],
) -> Result<(), AllocError>
    requires { All (λ n. n < length lists.old) targets.now }
    ensures { OnOk result (AddsTo from targets.now (map (λ l. l.items) lists.old) (map (λ l. l.items) lists.new)) }
{
    for &target in targets {
        lists[target.0 as usize].push(from)?;
    }
    Ok(())
}

/// The same nodes once more.
pub(crate) fn copy_of(alloc: Global, nodes: &[NodeId]) -> Result<Vec<NodeId>, AllocError>
    ensures { IfOk result (λ made. made.items ≡ nodes.now) }
{
    nodes.to_vec(alloc)
}

/// Whether a node is one of some others.
pub(crate) fn contains(nodes: &[NodeId], node: NodeId) -> bool
    ensures { IsTrue result ↔ Contains nodes.now node }
{
    for &other in nodes {
        if other.0 == node.0 {
            return true;
        }
    }
    false
}
