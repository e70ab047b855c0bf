//! Where a part is entered, and where it is left.

ghost use Rattle.std.specs.Prelude.{◌≡◌, ℕ, ◌<◌, ◌↔◌, ◌⊎◌, All, IfOk, OnOk, IsTrue, Contains, length, map};
ghost use Rattle.std.specs.List.Sorted.{IsStrictlyIncreasing};
ghost use Rattle.graph_order.specs.Graph.{HasEdge};
ghost use Rattle.graph_order.specs.Owners.{StandsIn};
ghost use Rattle.graph_order.specs.Ends.{HasTwo, AreHeads, AreExits, AddsOutside};

use crate::arrivals::has_two;
use crate::graph::{Graph, NodeId};
use crate::owners::stands_in;
use std::alloc::{AllocError, Global};

/// The heads of a part: the members that aren't bare, and where it has a bare cycle those with two arrivals.
pub(crate) fn heads_of(
    alloc: Global,
    members: &[NodeId],
    part: usize,
    bare: &[Option<usize>],
    arrivals: &[Vec<NodeId>],
    has_bare_cycle: bool,
) -> Result<Vec<NodeId>, AllocError>
    requires ascend { IsStrictlyIncreasing members.now }
    requires inside { All (λ n. n < length bare.now) members.now }
    requires size { length arrivals.now ≡ length bare.now }
    ensures { IfOk result (λ heads. AreHeads members.now part bare.now (map (λ l. l.items) arrivals.now) has_bare_cycle heads.items) }
{
    let mut heads = Vec::new(alloc);
    for &member in members {
        if is_head(
            member,
            part,
            bare,
            &arrivals[member.0 as usize],
            has_bare_cycle,
        ) {
            heads.push(member)?;
        }
    }
    Ok(heads)
}

/// Whether a member isn't bare, or has two arrivals where there is a bare cycle.
fn is_head(
    member: NodeId,
    part: usize,
    bare: &[Option<usize>],
    arrivals: &[NodeId],
    has_bare_cycle: bool,
) -> bool
    requires { member < length bare.now }
    ensures { IsTrue result ↔ ((StandsIn bare.now member part → ⊥) ⊎ (IsTrue has_bare_cycle × HasTwo arrivals.now)) }
{
    !stands_in(bare, member, part) || (has_bare_cycle && has_two(arrivals))
}

/// The exit targets of a part.
pub(crate) fn exits_of(
    alloc: Global,
    g: &Graph,
    members: &[NodeId],
    part: usize,
    owners: &[Option<usize>],
) -> Result<Vec<NodeId>, AllocError>
    requires inside { All (λ n. n < length g.now.succ) members.now }
    requires size { length owners.now ≡ length g.now.succ }
    ensures { IfOk result (λ exits. AreExits g.now members.now part owners.now exits.items) }
{
    let mut exits = Vec::new(alloc);
    for &member in members {
        add_outside(g.succ(member), part, owners, &mut exits)?;
    }
    exits.sort_by_key(|n| n.0)?;
    exits.dedup();
    Ok(exits)
}

/// Adds those of some nodes that don't stand in a part.
fn add_outside(
    nodes: &[NodeId],
    part: usize,
    owners: &[Option<usize>],
    outside: &mut Vec<NodeId>,
) -> Result<(), AllocError>
    requires { All (λ n. n < length owners.now) nodes.now }
    ensures { OnOk result (AddsOutside nodes.now part owners.now outside.old.items outside.new.items) }
{
    for &node in nodes {
        if !stands_in(owners, node, part) {
            outside.push(node)?;
        }
    }
    Ok(())
}
