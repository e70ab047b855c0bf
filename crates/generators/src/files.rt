//! Files that load some code.

ghost use Rattle.std.specs.Prelude.{◌≡◌, ◌≤◌, ◌<◌, ◌+◌, ◌^◌, ◌++◌, IfOk, OnOk, length};
ghost use Rattle.generators.specs.Code.{nest, ladder};
ghost use Rattle.generators.specs.Files.{program_header, file_of};

use crate::code::{push_ladder, push_nest, push_word};
use std::alloc::{AllocError, Global};

// The ELF header: an executable for the i386, entered at 0x08048054, with one program header at place 52.
const ELF_HEADER: [u8; 52] = [
    0x7f, b'E', b'L', b'F', 1, 1, 1, 0, 0, 0, 0, 0, 0, 0, 0, 0, 2, 0, 3, 0, 1, 0, 0, 0, 0x54, 0x80,
    0x04, 0x08, 52, 0, 0, 0, 0, 0, 0, 0, 0, 0, 0, 0, 52, 0, 32, 0, 1, 0, 0, 0, 0, 0, 0, 0,
];

// The type, the place in the file and the addresses of the program header, and its flags and alignment.
const LOADED: [u8; 16] = [
    1, 0, 0, 0, 0, 0, 0, 0, 0, 0x80, 0x04, 0x08, 0, 0x80, 0x04, 0x08,
];

const READ_AND_EXECUTED: [u8; 8] = [5, 0, 0, 0, 0, 0x10, 0, 0];

// The program header of a file of so many bytes.
fn push_program_header(bytes: &mut Vec<u8>, size: u32) -> Result<(), AllocError>
    ensures { OnOk result (bytes.new.items ≡ bytes.old.items ++ program_header size) }
{
    bytes.extend_from_slice(&LOADED)?;
    push_word(bytes, size)?;
    push_word(bytes, size)?;
    bytes.extend_from_slice(&READ_AND_EXECUTED)
}

/// The file that loads the code.
pub fn file(alloc: Global, code: &[u8]) -> Result<Vec<u8>, AllocError>
    requires small { length code.now < 2 ^ 31 }
    ensures { IfOk result (λ f. f.items ≡ file_of code.now) }
{
    let mut bytes = Vec::new(alloc);
    bytes.extend_from_slice(&ELF_HEADER)?;
    push_program_header(&mut bytes, 84 + code.len() as u32)?;
    bytes.extend_from_slice(code)?;
    Ok(bytes)
}

/// A file with one function: so many loops, one inside the other.
#[tactic(auto, using(crate::proofs::Lengths::nest_long))]
pub fn make_nest(alloc: Global, d: u32) -> Result<Vec<u8>, AllocError>
    requires some { 1 ≤ d }
    requires few { d ≤ 1000 }
    ensures { IfOk result (λ f. f.items ≡ file_of (nest d)) }
{
    let mut code = Vec::new(alloc);
    push_nest(&mut code, d)?;
    file(alloc, &code)
}

/// A file with one function: so many pairs of branches, one after another.
#[tactic(auto, using(crate::proofs::Lengths::ladder_long))]
pub fn make_ladder(alloc: Global, d: u32) -> Result<Vec<u8>, AllocError>
    requires some { 1 ≤ d }
    requires few { d ≤ 1000 }
    ensures { IfOk result (λ f. f.items ≡ file_of (ladder d)) }
{
    let mut code = Vec::new(alloc);
    push_ladder(&mut code, d)?;
    file(alloc, &code)
}
