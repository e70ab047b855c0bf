//! A flow whose stretches are joined.

ghost use Rattle.std.specs.Prelude.{IfOk};
ghost use Rattle.flow_passes.specs.Keeps.{JoinsRuns};
ghost use Rattle.flow_stretches.specs.Joined.{IsJoined};
ghost use Rattle.micro_ir.specs.Rule.{IsGiven};

use crate::joining::join_all;
use crate::plan::plan_of;
use graph_order::NodeId;
use micro_ir::Flow;
use sqlite_items::Items;
use std::alloc::{AllocError, Global};

/// The flow with a block for each stretch of blocks that lead only to the next one.
pub fn join_stretches(alloc: Global, f: Flow) -> Result<Flow, AllocError>
    requires given { IsGiven f }
    ensures joined { IfOk result (IsJoined f) }
    ensures given { IfOk result IsGiven }
    ensures runs { IfOk result (JoinsRuns f) }
{
    let Flow { entry, blocks } = f;
    let plan = plan_of(alloc, entry, blocks.as_slice())?;
    let entry = NodeId(plan.names[entry.0 as usize]);
    let blocks = join_all(alloc, blocks, &plan.names, &plan.stretches)?;
    Ok(Flow {
        entry,
        blocks: Items::from_vec(blocks),
    })
}
