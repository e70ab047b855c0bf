//! Where the last zero bytes of a file are. With this no string table is searched for the end of a name that
//! has none, however many symbols begin such a name, and however many sections share the table.

ghost use Rattle.std.specs.Prelude.{◌≡◌, ◌+◌, ◌*◌, ◌/◌, ◌≤◌, ◌<◌, length, drop, false, None, IfOk};
ghost use Rattle.elf_symbols.specs.Sections.{section_place, section_bytes, passes_end};
ghost use Rattle.elf_symbols.specs.Symbols.{ended};
ghost use Rattle.elf_symbols.specs.Zeros.{after_zero as after_zero_of, zeros_below};

use crate::sections::{section_offset, section_size};
use std::alloc::{AllocError, Global};

// The place after the last zero byte below one place, found from that below an earlier one.
fn after_zero(bytes: &[u8], from: usize, to: usize, known: usize) -> usize
    requires order { from ≤ to }
    requires inside { to ≤ length bytes.now }
    requires known { known ≡ after_zero_of bytes.now from }
    ensures { result ≡ after_zero_of bytes.now to }
{
    let mut last = known;
    for p in from..to {
        if bytes[p] == 0 {
            last = p + 1;
        }
    }
    last
}

/// The places after the last zero byte below each multiple of 256 that is no more than the file's length.
pub fn zeros(alloc: Global, bytes: &[u8]) -> Result<Vec<usize>, AllocError>
    ensures { IfOk result (λ v. v.items ≡ zeros_below bytes.now (length bytes.now / 256 + 1)) }
{
    let mut zeros = Vec::new(alloc);
    let mut last = 0;
    for k in 0..bytes.len() / 256 {
        zeros.push(last)?;
        last = after_zero(bytes, 256 * k, 256 * (k + 1), last);
    }
    zeros.push(last)?;
    Ok(zeros)
}

/// A place of section k from which on the section has no zero byte, so that no name begins there.
pub fn end_of_names(zeros: &[usize], bytes: &[u8], k: usize) -> usize
    requires file { 52 ≤ length bytes.now }
    requires table { section_place bytes.now k + 40 ≤ length bytes.now }
    requires inside { passes_end bytes.now k ≡ false }
    requires zeros { zeros.now ≡ zeros_below bytes.now (length bytes.now / 256 + 1) }
    ensures { ended (drop result (section_bytes bytes.now k)) ≡ None }
{
    let offset = section_offset(bytes, k);
    let end = offset + section_size(bytes, k);
    let step = end / 256;
    after_zero(bytes, 256 * step, end, zeros[step]).saturating_sub(offset)
}
