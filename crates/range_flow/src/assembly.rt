//! The flow of what was made for addresses.

ghost use Rattle.std.specs.Prelude.{◌≡◌, ◌+◌, ◌++◌, ◌^◌, ◌<◌, length, map, IfOk, OnOk};
ghost use Rattle.range_flow.specs.Pieces.{moved_block, flow_blocks};
ghost use Rattle.range_flow.specs.Nodes.{first_by, node_by, pieces_of, total_of};

use crate::first_nodes::FirstNodes;
use crate::lifted::Lifted;
use crate::nodes::{Nodes, push_blocks};
use graph_order::NodeId;
use micro_ir::{Block, Flow};
use sqlite_items::Items;
use std::alloc::{AllocError, Global};

// Puts the blocks of one at the end.
fn push_one(
    alloc: Global,
    flow: &mut Vec<Block>,
    firsts: &FirstNodes,
    one: Lifted,
) -> Result<(), AllocError>
    requires { length flow.old.items + length one.blocks.items < 2 ^ 32 }
    ensures { OnOk result (flow.new.items ≡ flow.old.items ++ map (moved_block (node_by (first_by firsts.now) (length flow.old.items) (length one.blocks.items) one.successors.items)) one.blocks.items) }
{
    let Lifted {
        at: _at,
        blocks,
        successors,
    } = one;
    let nodes = Nodes {
        firsts,
        start: flow.len() as u32,
        count: blocks.len() as u32,
        successors: &successors,
    };
    push_blocks(alloc, flow, &nodes, blocks)
}

/// The flow of what was made for addresses, which is entered at its first block.
pub fn joined(alloc: Global, all: Vec<Lifted>) -> Result<Flow, AllocError>
    requires { total_of all.items < 2 ^ 32 }
    ensures blocks { IfOk result (λ f. f.blocks ≡ flow_blocks (pieces_of all.items)) }
    ensures entry { IfOk result (λ f. f.entry ≡ 0) }
{
    let firsts = FirstNodes::of(alloc, &all)?;
    let mut blocks = Vec::new(alloc);
    for one in all {
        push_one(alloc, &mut blocks, &firsts, one)?;
    }
    Ok(Flow {
        entry: NodeId(0),
        blocks: Items::from_vec(blocks),
    })
}
