//! Which nodes the entry reaches.

ghost use Rattle.std.specs.Prelude.{◌≡◌, ℕ, ◌<◌, ◌↔◌, All, length, IfOk, OnOk};
ghost use Rattle.graph_order.specs.Graph.{IsReached, IsMarked};
ghost use Rattle.graph_order.specs.Marks.{Visits};

use crate::graph::{Graph, NodeId};
use std::alloc::{AllocError, Global};

/// For each node in turn, whether the entry reaches it.
pub fn reach(alloc: Global, g: &Graph) -> Result<Vec<bool>, AllocError>
    ensures len { IfOk result (λ reached. length reached.items ≡ length g.now.succ) }
    ensures exact { IfOk result (λ reached. (n : ℕ) → (IsMarked reached.items n ↔ IsReached g.now n)) }
{
    let entry = g.entry();
    let mut reached = vec![in alloc; false; g.count() as usize]?;
    let mut waiting = Vec::new(alloc);
    reached[entry.0 as usize] = true;
    waiting.push(entry)?;
    while let Some(node) = waiting.pop() {
        visit(g.succ(node), &mut reached, &mut waiting)?;
    }
    Ok(reached)
}

/// Marks those of some nodes that aren't marked yet, and lets them wait.
pub(crate) fn visit(
    nodes: &[NodeId],
    reached: &mut [bool],
    waiting: &mut Vec<NodeId>,
) -> Result<(), AllocError>
    requires { All (λ n. n < length reached.old) nodes.now }
    ensures { OnOk result (Visits nodes.now reached.old waiting.old.items reached.new waiting.new.items) }
{
    for &node in nodes {
        if !reached[node.0 as usize] {
            reached[node.0 as usize] = true;
            waiting.push(node)?;
        }
    }
    Ok(())
}
