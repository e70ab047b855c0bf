//! What is made for each place of a range, and for each address outside that they lead to.

ghost use Rattle.std.specs.Prelude.{◌≡◌, ◌+◌, ◌++◌, ◌^◌, ◌<◌, All, length, map, IfOk, OnOk};
ghost use Rattle.range_flow.specs.Nodes.{leave_piece, pieces_of, total_of};
ghost use Rattle.range_flow.specs.Lifting.{IsLiftedIn, CanBeLifted};

use crate::lifted::{Lifted, leave_to, lifted_at};
use elf_image::{Image, Range};
use std::alloc::{AllocError, Global};

/// What is made for places of a range, in their order.
pub fn lifted_places(
    alloc: Global,
    m: &Image,
    r: Range,
    places: &[u32],
) -> Result<Vec<Lifted>, AllocError>
    requires { All (CanBeLifted m.now r) places.now }
    ensures places { IfOk result (λ v. map (λ l. l.at) v.items ≡ places.now) }
    ensures lifted { IfOk result (λ v. All (IsLiftedIn m.now r) v.items) }
{
    let mut all = Vec::new(alloc);
    for &place in places {
        all.push(lifted_at(alloc, m, r, place)?)?;
    }
    Ok(all)
}

/// Puts what leaves for each of some addresses at the end.
pub fn push_leaves(alloc: Global, all: &mut Vec<Lifted>, outside: &[u32]) -> Result<(), AllocError>
    ensures pieces { OnOk result (pieces_of all.new.items ≡ pieces_of all.old.items ++ map leave_piece outside.now) }
    ensures total { OnOk result (total_of all.new.items ≡ total_of all.old.items + length outside.now) }
    ensures words { OnOk result (All (λ a. a < 2 ^ 32) outside.now) }
{
    for &address in outside {
        all.push(leave_to(alloc, address)?)?;
    }
    Ok(())
}
