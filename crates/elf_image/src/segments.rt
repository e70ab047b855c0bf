//! The segments of a file that breaks no rule.

ghost use Rattle.std.specs.Prelude.{◌≡◌, ◌+◌, ◌≤◌, ◌++◌, length, IfOk, OnOk, None, true, false};
ghost use Rattle.elf_image.specs.Header.{header_place, entry_count, is_load as is_load_at};
ghost use Rattle.elf_image.specs.Rules.{first_broken, is_outside};
ghost use Rattle.elf_image.specs.Image.{segments_of, segment_of, loaded_of};

use crate::bytes::Bytes;
use crate::fields::{half, header, is_load, word};
use crate::image::Segment;
use std::alloc::{AllocError, Global};

// The segment of a header whose bytes are within the file.
fn segment(alloc: Global, bytes: &[u8], k: usize) -> Result<Segment, AllocError>
    requires file { 52 ≤ length bytes.now }
    requires table { header_place bytes.now k + 32 ≤ length bytes.now }
    requires load { is_load_at bytes.now k ≡ true }
    requires inside { is_outside bytes.now k ≡ false }
    ensures { IfOk result (λ s. s ≡ segment_of bytes.now k) }
{
    let at = header(bytes, k);
    let offset = word(bytes, at + 4) as usize;
    let file_size = word(bytes, at + 16) as usize;
    let flags = word(bytes, at + 24);
    let own = bytes[offset..offset + file_size].to_vec(alloc)?;
    Ok(Segment {
        at: word(bytes, at + 8),
        bytes: Bytes::new(own),
        size: word(bytes, at + 20),
        writable: (flags / 2) % 2 == 1,
    })
}

// Adds the segment of a header, if it is to be loaded.
fn push_loaded(
    alloc: Global,
    bytes: &[u8],
    k: usize,
    segments: &mut Vec<Segment>,
) -> Result<(), AllocError>
    requires file { 52 ≤ length bytes.now }
    requires table { header_place bytes.now k + 32 ≤ length bytes.now }
    requires inside { is_outside bytes.now k ≡ false }
    ensures { OnOk result (segments.new.items ≡ segments.old.items ++ loaded_of bytes.now k) }
{
    if is_load(bytes, k) {
        segments.push(segment(alloc, bytes, k)?)?;
    }
    Ok(())
}

/// The segments that are loaded, in the order of the table.
pub fn segments(alloc: Global, bytes: &[u8]) -> Result<Vec<Segment>, AllocError>
    requires { first_broken bytes.now ≡ None }
    ensures { IfOk result (λ v. v.items ≡ segments_of bytes.now (entry_count bytes.now)) }
{
    let count = half(bytes, 44) as usize;
    let mut segments = Vec::new(alloc);
    for k in 0..count {
        push_loaded(alloc, bytes, k, &mut segments)?;
    }
    Ok(segments)
}
