//! The graph of a flow.

ghost use Rattle.std.specs.Prelude.{◌≡◌, ◌^◌, ◌<◌, length, map, IfOk};
ghost use Rattle.micro_ir.specs.Checked.{nodes_of};
ghost use Rattle.flow_stretches.specs.Joined.{graph_of};

use graph_order::{Graph, NodeId};
use micro_ir::{Block, Case, End};
use std::alloc::{AllocError, Global};

/// The nodes that an end names, in reading order.
fn nodes_of(alloc: Global, end: &End) -> Result<Vec<NodeId>, AllocError>
    ensures { IfOk result (λ nodes. nodes.items ≡ nodes_of end.now) }
{
    match end {
        End::Go(a) => Ok(Vec::from_array(alloc, [*a])?),
        End::Branch(_, a, b) => Ok(Vec::from_array(alloc, [*a, *b])?),
        End::Switch(_, cases) => targets_of(alloc, cases.as_slice()),
        End::Return | End::Leave(_) => Ok(Vec::new(alloc)),
    }
}

/// The nodes that cases lead to.
fn targets_of(alloc: Global, cases: &[Case]) -> Result<Vec<NodeId>, AllocError>
    ensures { IfOk result (λ nodes. nodes.items ≡ map (λ c. c.to) cases.now) }
{
    let mut nodes = Vec::new(alloc);
    for case in cases {
        nodes.push(case.to)?;
    }
    Ok(nodes)
}

/// The graph of the flow of an entry and some blocks.
pub(crate) fn graph_of(alloc: Global, entry: NodeId, blocks: &[Block]) -> Result<Graph, AllocError>
    requires { length blocks.now < 2 ^ 30 }
    ensures { IfOk result (λ g. g ≡ graph_of (record { entry = entry; blocks = blocks.now })) }
{
    let mut lists = Vec::new(alloc);
    for block in blocks {
        lists.push(nodes_of(alloc, &block.end)?)?;
    }
    match Graph::new(alloc, entry, lists) {
        Ok(graph) => Ok(graph),
        Err(_) => Err(AllocError),
    }
}
