//! The code of a range that is frozen as a whole.

ghost use Rattle.std.specs.Prelude.{◌≡◌, ◌+◌, ◌^◌, ◌≤◌, ◌<◌, length, IfOk, OnOk, IfErr, None, Err};
ghost use Rattle.elf_image.specs.Range.{bytes_to_end};
ghost use Rattle.flow_graph.specs.Place.{range_place, place_of, Names};

use crate::place::{Cause, FlowFault, Place};
use elf_image::{Image, Range};
use std::alloc::Global;

fn refused<T>(at: u32, cause: Cause) -> Result<T, FlowFault>
    ensures { result ≡ Err (FlowFault.Outside (place_of at cause)) }
{
    Err(FlowFault::Outside(Place { at, cause }))
}

/// The code of a range, or the place of the range as a whole.
pub fn range_code(alloc: Global, m: &Image, r: &Range) -> Result<Vec<u8>, FlowFault>
    ensures frozen { OnOk result (range_place m.now r.now ≡ None) }
    ensures code { IfOk result (λ v. v.items ≡ bytes_to_end m.now r.now r.now.entry) }
    ensures len { IfOk result (λ v. length v.items ≡ r.now.size) }
    ensures some { OnOk result (0 < r.now.size) }
    ensures few { OnOk result (r.now.size ≤ 65536) }
    ensures fits { OnOk result (r.now.entry + r.now.size ≤ 2 ^ 32) }
    ensures err { IfErr result (Names (range_place m.now r.now)) }
{
    if r.size == 0 {
        return refused(r.entry, Cause::RangeEmpty);
    }
    if r.size > 65536 {
        return refused(r.entry, Cause::RangeTooLarge);
    }
    let code = match m.bytes_to_end(alloc, *r, r.entry) {
        Ok(code) => code,
        Err(_) => return Err(FlowFault::Memory),
    };
    if code.len() < r.size as usize {
        let at = u64::from(r.entry) + code.len() as u64;
        return refused(at.min(0xffff_ffff) as u32, Cause::RangeUnbacked);
    }
    Ok(code)
}
