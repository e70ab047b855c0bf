//! From a range to what of it is reached.

ghost use Rattle.std.specs.Prelude.{IfOk, OnOk, IfErr};
ghost use Rattle.flow_graph.specs.Place.{HasNoPlace, HasNoText};
ghost use Rattle.flow_graph.specs.Discovery.{IsDiscovered};

use crate::place::{FlowFault, Found};
use crate::range_code::range_code;
use crate::sites::site_at;
use crate::walk::Walk;
use elf_image::{Image, Range};
use std::alloc::Global;

/// What of a range is reached, or the place that is named.
///
/// It reads the code of the range once, and each address that is reached is visited once.
pub fn discover(alloc: Global, m: &Image, r: &Range) -> Result<Found, FlowFault>
    ensures discovered { IfOk result (λ f. IsDiscovered m.now r.now f.places.items f.graph) }
    ensures no_place { OnOk result (HasNoPlace m.now r.now) }
    ensures err { IfErr result (HasNoText m.now r.now) }
{
    let code = range_code(alloc, m, r)?;
    let mut walk = Walk::new(alloc, r.entry)?;
    while let Some(at) = walk.waiting() {
        let site = site_at(alloc, m, r, &code, at)?;
        walk.visit(alloc, at, site)?;
    }
    walk.finish(alloc)
}
