//! The memory that an image's file gives.

ghost use Rattle.std.specs.Prelude.{◌≡◌, ℕ, IfOk, unwrap_or};
ghost use Rattle.elf_image.specs.Image.{backed_byte, frozen_byte};
ghost use Rattle.dream_words.specs.Memory.{byte_at};

use dream_words::Memory;
use elf_image::Image;
use std::alloc::{AllocError, Global};

/// The memory that has each byte of the image, and 0 elsewhere. Only the bytes that the file gives are
/// visited, since the others of a segment are 0. A run may start in it: it has the frozen bytes.
pub fn start_memory(alloc: Global, image: &Image) -> Result<Memory, AllocError>
    ensures backed { IfOk result (λ m. (a : ℕ) → byte_at m a ≡ unwrap_or (backed_byte image.now a) 0) }
    ensures frozen { IfOk result (λ m. (a b : ℕ) → frozen_byte image.now a ≡ Some b → byte_at m a ≡ b) }
{
    let mut mem = Memory::new(alloc);
    for s in image.segments() {
        mem.place(s.at, s.bytes.as_slice())?;
    }
    Ok(mem)
}
