//! The blocks of the wide instructions: products, quotients, shifts, tests of bits, scans and strings.
//! Given are an instruction, its address and the next one.
//! Promised is its block, which has its effect from every state and is never stuck, or none where it is none of these.
#![tactic(auto)]

ghost use Rattle.std.specs.Prelude.{IfOk};
ghost use Rattle.lift_wide.specs.Wide.{IsWideBlock};

use lift_bits_strings::{bit, scan, string};
use lift_products::{div, idiv, imul_wide, imul2, imul3, mul};
use lift_shifts::{double_shift, shift};
use micro_ir::Block;
use std::alloc::{AllocError, Global};
use x86_inst::Inst;

/// The block of a wide instruction at an address; `None` exactly for the others.
///
/// Of a repeated string instruction it is the round: node 1 of two blocks, of which node 0 is the test of ECX.
pub fn lift_wide(alloc: Global, i: &Inst, at: u32, next: u32) -> Result<Option<Block>, AllocError>
    ensures { IfOk result (IsWideBlock i.now at next) }
{
    match *i {
        Inst::Mul(size, s) => Ok(Some(mul(alloc, at, size, s)?)),
        Inst::ImulWide(size, s) => Ok(Some(imul_wide(alloc, at, size, s)?)),
        Inst::Imul2(size, d, s) => Ok(Some(imul2(alloc, at, size, d, s)?)),
        Inst::Imul3(size, d, s, k) => Ok(Some(imul3(alloc, at, size, d, s, k)?)),
        Inst::Div(size, s) => Ok(Some(div(alloc, at, size, s)?)),
        Inst::Idiv(size, s) => Ok(Some(idiv(alloc, at, size, s)?)),
        Inst::Shift(op, size, d, n) => Ok(Some(shift(alloc, at, op, size, d, n)?)),
        Inst::DShift(left, d, g, n) => Ok(Some(double_shift(alloc, at, left, d, g, n)?)),
        Inst::Bit(op, size, d, s) => Ok(Some(bit(alloc, at, op, size, d, s)?)),
        Inst::Scan(up, size, d, s, tz) => Ok(Some(scan(alloc, at, up, size, d, s, tz)?)),
        Inst::Str(op, size, r, s) => Ok(Some(string(alloc, at, op, size, r, s)?)),
        _ => Ok(None),
    }
}
