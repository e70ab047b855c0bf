//! Images of code that the rows are about.

use elf_image::{Image, ImageFault};
use std::alloc::{AllocError, Global};
use std::test::Fail;

/// Where the code stands.
pub(crate) const ENTRY: u32 = 0x0804_8100;

/// Where the table stands.
pub(crate) const TABLE: u32 = 0x0804_9000;

/// The image of a file: code at the entry, with so many zeros after it, in a segment that can't be written, and a table, where it
/// has words, in a segment of its own with these flags.
pub(crate) fn image(
    alloc: Global,
    code: &[u8],
    zeros: u32,
    table: &[u32],
    flags: u32,
) -> Result<Image, Fail> {
    let size = u32::try_from(0x100 + code.len())?;
    let length = u32::try_from(4 * table.len())?;
    let count = if table.is_empty() { 1 } else { 2 };
    let whole = size.wrapping_add(zeros);
    let mut bytes = Vec::from_slice(alloc, b"\x7fELF\x01\x01\x01\0\0\0\0\0\0\0\0\0")?;
    push_words(
        &mut bytes,
        &[0x0003_0002, 1, ENTRY, 52, 0, 0, 0x0020_0034, count, 0],
    )?;
    push_words(
        &mut bytes,
        &[1, 0, 0x0804_8000, 0x0804_8000, size, whole, 5, 4096],
    )?;
    push_words(
        &mut bytes,
        &[1, 0x1000, TABLE, TABLE, length, length, flags, 4096],
    )?;
    bytes.resize(0x100, 0)?;
    bytes.extend_from_slice(code)?;
    bytes.resize(0x1000, 0)?;
    push_words(&mut bytes, table)?;
    match Image::read(alloc, &bytes) {
        Ok(image) => Ok(image),
        Err(ImageFault::Memory) => Err(AllocError.into()),
        Err(ImageFault::Elf(_)) => Err("no image".into()),
    }
}

// Adds words to a file.
fn push_words(bytes: &mut Vec<u8>, words: &[u32]) -> Result<(), Fail> {
    for word in words {
        bytes.extend_from_slice(&u32::to_le_bytes(*word))?;
    }
    Ok(())
}
