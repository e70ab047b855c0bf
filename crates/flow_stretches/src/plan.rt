//! The stretches of a flow, and the names of their first nodes.

ghost use Rattle.std.specs.Prelude.{◌<◌, IfOk, length, map};
ghost use Rattle.flow_stretches.specs.Joined.{AreStretches};
ghost use Rattle.flow_stretches.specs.Known.{name_by};
ghost use Rattle.micro_ir.specs.Rule.{IsGiven};

use crate::comers::comers_in;
use crate::following::{firsts_in, next_in};
use crate::graph::graph_of;
use crate::paths::{names_in, paths_in};
use graph_order::{NodeId, reach};
use micro_ir::Block;
use std::alloc::{AllocError, Global};

/// Stretches, and for each node the number of the stretch that it is the first one of.
#[derive(Drop)]
pub(crate) struct Plan {
    pub(crate) stretches: Vec<Vec<usize>>,
    pub(crate) names: Vec<u32>,
}

/// The stretches of the flow of an entry and some blocks.
pub(crate) fn plan_of(alloc: Global, entry: NodeId, blocks: &[Block]) -> Result<Plan, AllocError>
    requires { IsGiven (record { entry = entry; blocks = blocks.now }) }
    ensures stretches { IfOk result (λ plan. AreStretches (record { entry = entry; blocks = blocks.now }) (map (λ l. l.items) plan.stretches.items) (name_by plan.names.items)) }
    ensures entry { IfOk result (λ plan. entry < length plan.names.items) }
{
    let graph = graph_of(alloc, entry, blocks)?;
    let reached = reach(alloc, &graph)?;
    let comers = comers_in(alloc, &graph, &reached)?;
    let next = next_in(alloc, entry, blocks, &reached, &comers)?;
    let firsts = firsts_in(&next, reached);
    let stretches = paths_in(alloc, &next, &firsts)?;
    let names = names_in(alloc, &firsts)?;
    Ok(Plan { stretches, names })
}
