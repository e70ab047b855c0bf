//! Files of many small functions.

ghost use Rattle.std.specs.Prelude.{◌≡◌, ◌≤◌, ◌<◌, ◌^◌, ◌+◌, ◌++◌, IfOk, OnOk, length};
ghost use Rattle.generators.specs.Code.{function_code, function_table, piece, pieces, ranges, start};
ghost use Rattle.generators.specs.Files.{file_of};

use crate::code::{push_caller, push_constant, push_ladder, push_nest, push_switcher, push_table};
use crate::files::file;
use elf_image::Range;
use std::alloc::{AllocError, Global};

const START: u32 = 0x0804_8054;

// The code of function k at an address.
fn push_function(bytes: &mut Vec<u8>, k: u32, at: u32) -> Result<(), AllocError>
    requires low { at < 2 ^ 31 }
    ensures { OnOk result (bytes.new.items ≡ bytes.old.items ++ function_code k at) }
{
    match k % 8 {
        0 => push_constant(bytes, k),
        1 => bytes.extend_from_slice(&[
            0x8b, 0x44, 0x24, 0x04, 0x85, 0xc0, 0x79, 0x02, 0xf7, 0xd8, 0xc3,
        ]),
        2 => bytes.extend_from_slice(&[
            0x31, 0xc0, 0x8b, 0x4c, 0x24, 0x04, 0x01, 0xc8, 0x49, 0x75, 0xfb, 0xc3,
        ]),
        3 => bytes.extend_from_slice(&[0x85, 0xc0, 0x74, 0x01, 0x48, 0x49, 0x75, 0xfc, 0xc3]),
        4 => push_nest(bytes, 1 + k / 8 % 8),
        5 => push_caller(bytes, at),
        6 => push_ladder(bytes, 2 + k / 8 % 4),
        _ => push_switcher(bytes, at),
    }
}

// What comes after that code.
fn push_rest(bytes: &mut Vec<u8>, k: u32, at: u32) -> Result<(), AllocError>
    requires low { at < 2 ^ 31 }
    ensures { OnOk result (bytes.new.items ≡ bytes.old.items ++ function_table k at) }
{
    if k % 8 == 7 {
        push_table(bytes, at)
    } else {
        Ok(())
    }
}

/// The code of a file and the ranges of its functions.
#[derive(Drop)]
struct Functions {
    code: Vec<u8>,
    ranges: Vec<Range>,
}

// Functions 0 to n - 1.
#[tactic(auto, using(crate::proofs::Lengths::pieces_short, crate::proofs::Lengths::code_short))]
fn drill(alloc: Global, n: u32) -> Result<Functions, AllocError>
    requires few { n ≤ 4000 }
    ensures code { IfOk result (λ d. d.code.items ≡ pieces n) }
    ensures ranges { IfOk result (λ d. d.ranges.items ≡ ranges n) }
    ensures small { IfOk result (λ d. length d.code.items < 2 ^ 31) }
{
    let mut code = Vec::new(alloc);
    let mut ranges = Vec::new(alloc);
    for k in 0..n {
        let at = START + code.len() as u32;
        push_function(&mut code, k, at)?;
        ranges.push(Range::new(at, START + code.len() as u32 - at))?;
        push_rest(&mut code, k, at)?;
    }
    Ok(Functions { code, ranges })
}

/// A file of so many small functions of eight kinds, in turn.
pub fn make_drill(alloc: Global, n: u32) -> Result<Vec<u8>, AllocError>
    requires some { 1 ≤ n }
    requires few { n ≤ 4000 }
    ensures { IfOk result (λ f. f.items ≡ file_of (pieces n)) }
{
    let made = drill(alloc, n)?;
    file(alloc, &made.code)
}

/// The ranges of its functions, in their order.
pub fn drill_ranges(alloc: Global, n: u32) -> Result<Vec<Range>, AllocError>
    requires some { 1 ≤ n }
    requires few { n ≤ 4000 }
    ensures { IfOk result (λ r. r.items ≡ ranges n) }
{
    let made = drill(alloc, n)?;
    Ok(made.ranges)
}
