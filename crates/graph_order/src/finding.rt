//! The loops of a graph.

ghost use Rattle.std.specs.Prelude.{IfOk};
ghost use Rattle.graph_order.specs.Loops.{AreLoops};

use crate::arrivals::arrivals;
use crate::bare::{bare_cycles, bare_members};
use crate::ends::{exits_of, heads_of};
use crate::graph::{Graph, NodeId};
use crate::groups::components;
use crate::lists::copy_of;
use crate::owners::owners_of;
use crate::parts::{Loops, Part};
use crate::visits::reach;
use std::alloc::{AllocError, Global};

/// The loops of a graph: each component with its heads and its exit targets.
///
/// The parts stand by their least members.
pub fn loops(alloc: Global, g: &Graph) -> Result<Loops, AllocError>
    ensures { IfOk result (λ loops. AreLoops g.now loops.parts.items) }
{
    let all = components(alloc, g)?;
    let reached = reach(alloc, g)?;
    let owners = owners_of(alloc, g, &all)?;
    let arrivals = arrivals(alloc, g, &reached)?;
    let bare = bare_members(alloc, g, &owners, &arrivals)?;
    let cycles = bare_cycles(alloc, g, &bare, all.len())?;
    let mut parts = Vec::new(alloc);
    for part in 0..all.len() {
        let members = copy_of(alloc, &all[part])?;
        let heads = heads_of(alloc, &members, part, &bare, &arrivals, cycles[part])?;
        let exits = exits_of(alloc, g, &members, part, &owners)?;
        parts.push(Part {
            members,
            heads,
            exits,
        })?;
    }
    Ok(Loops { parts })
}
