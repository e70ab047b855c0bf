//! Ends of blocks whose nodes are named anew.

ghost use Rattle.std.specs.Prelude.{◌≡◌, ◌+◌, ◌++◌, ◌^◌, ◌≤◌, nat_eq, unwrap_or, map, IfOk, OnOk};
ghost use Rattle.std.specs.HashMap.{get};
ghost use Rattle.micro_ir.specs.Laws.{moved_case, moved_end};
ghost use Rattle.range_flow.specs.Pieces.{moved_block};
ghost use Rattle.range_flow.specs.Nodes.{first_by, node_by, node_in};

use crate::first_nodes::FirstNodes;
use graph_order::NodeId;
use micro_ir::{Block, Case, End};
use sqlite_items::Items;
use std::alloc::{AllocError, Global};

/// What the nodes that some blocks name are in the flow.
#[derive(Clone, Copy)]
pub struct Nodes<'a> {
    pub firsts: &'a FirstNodes,
    /// The node of the first of the blocks.
    pub start: u32,
    /// How many blocks there are.
    pub count: u32,
    pub successors: &'a [u32],
}

// The flow's node for a node that a block names.
fn node(nodes: &Nodes, n: NodeId) -> NodeId
    requires { nodes.now.start + nodes.now.count ≤ 2 ^ 32 }
    ensures { result ≡ node_in nodes.now n }
{
    if n.0 < nodes.count {
        return NodeId(nodes.start + n.0);
    }
    match nodes.successors.get((n.0 - nodes.count) as usize) {
        None => NodeId(0),
        Some(a) => NodeId(nodes.firsts.first(*a)),
    }
}

// Cases that lead to the flow's nodes.
fn moved_cases(alloc: Global, nodes: &Nodes, cases: &[Case]) -> Result<Vec<Case>, AllocError>
    requires { nodes.now.start + nodes.now.count ≤ 2 ^ 32 }
    ensures { IfOk result (λ v. v.items ≡ map (moved_case (node_in nodes.now)) cases.now) }
{
    let mut moved = Vec::new(alloc);
    for case in cases {
        moved.push(Case {
            value: case.value,
            to: node(nodes, case.to),
        })?;
    }
    Ok(moved)
}

// An end that leads to the flow's nodes.
fn end_in_flow(alloc: Global, nodes: &Nodes, end: End) -> Result<End, AllocError>
    requires { nodes.now.start + nodes.now.count ≤ 2 ^ 32 }
    ensures { IfOk result (λ e. e ≡ moved_end (node_in nodes.now) end) }
{
    match end {
        End::Go(a) => Ok(End::Go(node(nodes, a))),
        End::Branch(t, a, b) => Ok(End::Branch(t, node(nodes, a), node(nodes, b))),
        End::Switch(e, cases) => {
            let moved = moved_cases(alloc, nodes, cases.as_slice())?;
            Ok(End::Switch(e, Items::from_vec(moved)))
        }
        End::Return => Ok(End::Return),
        End::Leave(e) => Ok(End::Leave(e)),
    }
}

// A block that leads to the flow's nodes.
fn block_in_flow(alloc: Global, nodes: &Nodes, block: Block) -> Result<Block, AllocError>
    requires { nodes.now.start + nodes.now.count ≤ 2 ^ 32 }
    ensures { IfOk result (λ b. b ≡ moved_block (node_in nodes.now) block) }
{
    let Block { at, stmts, end } = block;
    let end = end_in_flow(alloc, nodes, end)?;
    Ok(Block { at, stmts, end })
}

/// Puts blocks that lead to the flow's nodes at the end.
pub fn push_blocks(
    alloc: Global,
    flow: &mut Vec<Block>,
    nodes: &Nodes,
    blocks: Vec<Block>,
) -> Result<(), AllocError>
    requires { nodes.now.start + nodes.now.count ≤ 2 ^ 32 }
    ensures { OnOk result (flow.new.items ≡ flow.old.items ++ map (moved_block (node_in nodes.now)) blocks.items) }
{
    for block in blocks {
        flow.push(block_in_flow(alloc, nodes, block)?)?;
    }
    Ok(())
}
