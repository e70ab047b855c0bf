//! Which part each node stands in.

ghost use Rattle.std.specs.Prelude.{ℕ, ◌<◌, ◌↔◌, All, IfOk, IsTrue, Contains, length, map};
ghost use Rattle.graph_order.specs.Listed.{AreComponents};
ghost use Rattle.graph_order.specs.Owners.{StandsIn, AreOwners, Owns};

use crate::graph::{Graph, NodeId};
use std::alloc::{AllocError, Global};

/// For each node in turn the number of the part that it stands in.
pub(crate) fn owners_of(
    alloc: Global,
    g: &Graph,
    parts: &[Vec<NodeId>],
) -> Result<Vec<Option<usize>>, AllocError>
    requires { AreComponents g.now (map (λ l. l.items) parts.now) }
    ensures { IfOk result (λ owners. AreOwners (length g.now.succ) (map (λ l. l.items) parts.now) owners.items) }
{
    let mut owners = vec![in alloc; None; g.count() as usize]?;
    for part in 0..parts.len() {
        own(&parts[part], part, &mut owners);
    }
    Ok(owners)
}

/// Writes a part's number to each of its members.
fn own(members: &[NodeId], part: usize, owners: &mut [Option<usize>])
    requires { All (λ n. n < length owners.old) members.now }
    ensures { Owns members.now part owners.old owners.new }
{
    for &member in members {
        owners[member.0 as usize] = Some(part);
    }
}

/// Whether a node stands in a part.
pub(crate) fn stands_in(owners: &[Option<usize>], node: NodeId, part: usize) -> bool
    requires { node < length owners.now }
    ensures { IsTrue result ↔ StandsIn owners.now node part }
{
    match owners[node.0 as usize] {
        Some(own) => own == part,
        None => false,
    }
}

/// Whether some node stands outside a part.
pub(crate) fn comes_from_outside(owners: &[Option<usize>], nodes: &[NodeId], part: usize) -> bool
    requires { All (λ a. a < length owners.now) nodes.now }
    ensures { IsTrue result ↔ ((a : ℕ) × Contains nodes.now a × (StandsIn owners.now a part → ⊥)) }
{
    for &node in nodes {
        if !stands_in(owners, node, part) {
            return true;
        }
    }
    false
}
