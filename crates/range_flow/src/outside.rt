//! The addresses outside a range that its code leads to.

ghost use Rattle.std.specs.Prelude.{◌≡◌, ◌+◌, ◌*◌, ℕ, ◌≤◌, ◌^◌, ◌<◌, ◌||◌, ◌&&◌, nat_eq, not, length, All, IfOk, OnOk};
ghost use Rattle.std.specs.List.{list_any};
ghost use Rattle.indexmap.specs.IndexSet.{contains, IsUnique};
ghost use Rattle.elf_image.specs.Range.{is_inside};
ghost use Rattle.range_flow.specs.Nodes.{leads_outside, successors_in};

use crate::lifted::Lifted;
use elf_image::Range;
use indexmap::IndexSet;
use std::alloc::{AllocError, Global};

// Notes those of some addresses that are outside.
fn note(outside: &mut IndexSet<u32>, r: Range, addresses: &[u32]) -> Result<(), AllocError>
    ensures members { OnOk result ((a : ℕ) → contains nat_eq outside.new a ≡ (contains nat_eq outside.old a || not (is_inside r a) && list_any (nat_eq a) addresses.now)) }
    ensures few { OnOk result (length outside.new.keys ≤ length outside.old.keys + length addresses.now) }
{
    for &address in addresses {
        if !r.is_inside(address) {
            outside.insert(address)?;
        }
    }
    Ok(())
}

/// The addresses outside a range that are among the successors, each once.
pub fn outside_of(alloc: Global, r: Range, all: &[Lifted]) -> Result<IndexSet<u32>, AllocError>
    ensures members { IfOk result (λ s. (a : ℕ) → contains nat_eq s a ≡ leads_outside r all.now a) }
    ensures unique { IfOk result (IsUnique nat_eq) }
    ensures few { IfOk result (λ s. length s.keys ≤ successors_in all.now) }
{
    let mut outside = IndexSet::new(alloc);
    for one in all {
        note(&mut outside, r, &one.successors)?;
    }
    let _count = outside.len();
    Ok(outside)
}
