//! What stays the same in a run: the image, the range, the return slot, the pages that may be accessed and the answers.

ghost use Rattle.std.specs.Prelude.{◌≡◌, ◌&&◌, ◌==◌, not, ℕ, IfOk, Option, take};
ghost use Rattle.elf_image.specs.Range.{is_inside, bytes_to_end};
ghost use Rattle.x86_inst.specs.declared.Inst.{Inst as Instruction};
ghost use Rattle.elf_image.specs.declared.image.Segment.{Segment as Part};
ghost use Rattle.std.specs.Prelude.{List};
ghost use Rattle.machine.specs.Code.{Decodes};
ghost use Rattle.machine.specs.Run.{is_indirect as is_indirect_in};

use dream_words::{Answer, Pages};
use elf_image::{Image, Range};
use std::alloc::{AllocError, Global};
use x86_decode::{Decoded, decode};
use x86_inst::Inst;

/// What stays the same in a run.
#[derive(Clone, Copy)]
pub struct Setting<'a> {
    pub image: &'a Image,
    pub range: Range,
    /// The first of the four addresses at which the return address lies.
    pub slot: u32,
    /// The pages that may be read and written.
    pub pages: &'a Pages,
    /// The k-th call takes the k-th answer.
    pub answers: &'a [Answer],
}

// No instruction is longer.
const MOST_BYTES: u32 = 15;

/// The part of a range from an address on that an instruction may take.
fn window(range: Range, at: u32) -> Range
    ensures { (m : List Part) → bytes_to_end m result at ≡ take 15 (bytes_to_end m range at) }
{
    if !range.is_inside(at) {
        return Range::new(at, 0);
    }
    let left = u64::from(range.entry) + u64::from(range.size) - u64::from(at);
    Range::new(at, left.min(u64::from(MOST_BYTES)) as u32)
}

/// The instruction at an address, with its length in bytes, or none.
pub(crate) fn fetch(
    alloc: Global,
    image: &Image,
    range: Range,
    at: u32,
) -> Result<Option<(Inst, u8)>, AllocError>
    ensures { IfOk result (λ o.
        (decoded : ℕ → Option (Instruction × ℕ)) → Decodes image.now range decoded → o ≡ decoded at) }
{
    let bytes = image.bytes_to_end(alloc, window(range, at), at)?;
    match decode(&bytes) {
        Decoded::Inst(inst, len) => Ok(Some((inst, len))),
        Decoded::Cut => Ok(None),
        Decoded::None => Ok(None),
    }
}

/// The instruction calls or jumps by a word of a register or of memory.
fn is_indirect(inst: &Inst) -> bool
    ensures { result ≡ is_indirect_in inst.now }
{
    matches!(inst, Inst::CallTo(_) | Inst::JmpTo(_))
}

/// It does so into the range, and not to its entry.
pub(crate) fn is_middle(range: Range, inst: &Inst, a: u32) -> bool
    ensures { result ≡ (is_indirect_in inst.now && (is_inside range a && not (a == range.entry))) }
{
    is_indirect(inst) && range.is_inside(a) && a != range.entry
}
