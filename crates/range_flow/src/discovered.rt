//! From what is discovered of a range to its flow.

ghost use Rattle.std.specs.Prelude.{IfOk};
ghost use Rattle.flow_graph.specs.Place.{HasNoPlace};
ghost use Rattle.flow_graph.specs.Discovery.{IsDiscovered};
ghost use Rattle.range_flow.specs.Flow.{IsFlowOf};

use crate::assembly::joined;
use crate::outside::outside_of;
use crate::places::{lifted_places, push_leaves};
use elf_image::{Image, Range};
use flow_graph::Found;
use micro_ir::Flow;
use std::alloc::{AllocError, Global};

/// The flow of a range: the blocks of the windows and instructions at the places that are reached, in the order of discovery,
/// and then those that leave for the addresses outside that they lead to, in the order in which these come.
pub fn flow_of(alloc: Global, m: &Image, r: &Range, found: &Found) -> Result<Flow, AllocError>
    requires no_place { HasNoPlace m.now r.now }
    requires discovered { IsDiscovered m.now r.now found.now.places.items found.now.graph }
    ensures { IfOk result (IsFlowOf m.now r.now found.now.places.items) }
{
    let mut all = lifted_places(alloc, m, *r, &found.places)?;
    let outside = outside_of(alloc, *r, &all)?;
    push_leaves(alloc, &mut all, outside.as_slice())?;
    joined(alloc, all)
}
