//! Files that hold code, as rows of the program have them.

use std::alloc::{AllocError, Global};

/// `mov eax, 5` and `ret`.
pub const MOVE: [u8; 6] = [0xb8, 5, 0, 0, 0, 0xc3];

// A header, one program header at place 52, zeros up to place 0x100 and the code there. All of the file is loaded at the
// address `base`; where `twice` holds, it is so by two equal headers. So many section headers are said to stand at the
// place `table`.
fn elf_of(
    alloc: Global,
    base: u32,
    code: &[u8],
    twice: bool,
    table: u32,
    sections: u32,
) -> Result<Vec<u8>, AllocError> {
    let size = low_length(code.len()).saturating_add(0x100);
    let count = if twice { 2 } else { 1 };
    let entries = if sections == 0 { 0 } else { 0x0028_0000 };
    let header = [
        0x0003_0002,
        1,
        0x0804_8100,
        52,
        table,
        0,
        0x0020_0034,
        entries + count,
        sections,
    ];
    let segment = [1, 0, base, base, size, size, 5, 4096];
    let mut bytes = Vec::from_slice(alloc, b"\x7fELF\x01\x01\x01\0\0\0\0\0\0\0\0\0")?;
    push_words(&mut bytes, &header)?;
    for _ in 0..count {
        push_words(&mut bytes, &segment)?;
    }
    bytes.resize(0x100, 0)?;
    bytes.extend_from_slice(code)?;
    Ok(bytes)
}

/// Adds words to a file.
pub fn push_words(bytes: &mut Vec<u8>, words: &[u32]) -> Result<(), AllocError> {
    for word in words {
        bytes.extend_from_slice(&u32::to_le_bytes(*word))?;
    }
    Ok(())
}

/// A file without section headers that holds the code at place 0x100, and is loaded at the address `base`; where `twice`
/// holds, by two equal program headers.
pub fn elf_at(alloc: Global, base: u32, code: &[u8], twice: bool) -> Result<Vec<u8>, AllocError> {
    elf_of(alloc, base, code, twice, 0, 0)
}

/// The code at 0x08048100.
pub fn elf(alloc: Global, code: &[u8]) -> Result<Vec<u8>, AllocError> {
    elf_at(alloc, 0x0804_8000, code, false)
}

/// The move at 0x08048100, under the name `main`: two symbols at place 262, their names at 294 and three section headers at 300.
pub fn elf_with_main(alloc: Global) -> Result<Vec<u8>, AllocError> {
    let mut bytes = elf_of(alloc, 0x0804_8000, &MOVE, false, 300, 3)?;
    push_words(&mut bytes, &[0, 0, 0, 0, 1, 0x0804_8100, 6, 0x0001_0012])?;
    bytes.extend_from_slice(b"\0main\0")?;
    push_words(&mut bytes, &[0; 10])?;
    push_words(&mut bytes, &[0, 2, 0, 0, 262, 32, 2, 0, 0, 16])?;
    push_words(&mut bytes, &[0, 3, 0, 0, 294, 6, 0, 0, 0, 0])?;
    Ok(bytes)
}

/// A switch over eax by a table at 0x08049000, which is loaded with these flags: a branch of this opcode skips the jump and goes
/// to code that sets eax to 0, the table's words lead there (0x0804810c) or past it (0x0804810e).
pub fn elf_with_table(
    alloc: Global,
    branch: u8,
    flags: u32,
    table: &[u32],
) -> Result<Vec<u8>, AllocError> {
    let size = low_length(table.len()).saturating_mul(4);
    let header = [
        0x0003_0002,
        1,
        0x0804_8100,
        52,
        0,
        0,
        0x0020_0034,
        2,
        0,
        1,
        0,
        0x0804_8000,
        0x0804_8000,
        0x10f,
        0x10f,
        5,
        4096,
        1,
        0x1000,
        0x0804_9000,
        0x0804_9000,
        size,
        size,
        flags,
        4096,
    ];
    let mut bytes = Vec::from_slice(alloc, b"\x7fELF\x01\x01\x01\0\0\0\0\0\0\0\0\0")?;
    push_words(&mut bytes, &header)?;
    bytes.resize(0x100, 0)?;
    bytes.extend_from_slice(&[0x83, 0xf8, 2, branch, 7, 0xff, 0x24, 0x85])?;
    bytes.extend_from_slice(&[0, 0x90, 4, 8, 0x31, 0xc0, 0xc3])?;
    bytes.resize(0x1000, 0)?;
    push_words(&mut bytes, table)?;
    Ok(bytes)
}

/// The words of a table for it.
pub const THREE: [u32; 3] = [0x0804_810c, 0x0804_810e, 0x0804_810c];

// A length as a word of a header.
fn low_length(n: usize) -> u32 {
    u32::try_from(n).unwrap_or(u32::MAX)
}
