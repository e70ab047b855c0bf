//! The words of a shift: its result, CF and OF. The local t0 has the operand, and t2 the result.

ghost use Rattle.std.specs.Prelude.{◌≡◌, ◌-◌, IfOk};
ghost use Rattle.lift_shifts.specs.Shifts.{shift_word as shift_word_of, carry_word as carry_word_of, over_word as over_word_of, lowest_word as lowest_word_of, double_word as double_word_of};
ghost use Rattle.c_syntax.specs.declared.syntax.CBin.TheVariants as op;
ghost use Rattle.c_syntax.specs.declared.syntax.CFn2.TheVariants as fn;
ghost use Rattle.c_words.specs.Built.{bin as bin_of, fn2 as fn2_of, num as num_of};
ghost use Rattle.lift_alu.specs.Words.{top_word as top_word_of};
ghost use Rattle.lift_blocks.specs.Extended.{extended as extended_of};
ghost use Rattle.lift_parts.specs.Parts.{temp as temp_word};
ghost use Rattle.lift_shifts.specs.Counts.{count_word as count_word_of};
ghost use Rattle.x86_inst.specs.declared.ShiftOp.TheVariants.{Rol, Ror};
ghost use Rattle.x86_model.specs.Operands.{bits_of};

use crate::amounts::{back_word, before_word, count_word, rest_word, second_place, turns_word};
use crate::conditions::top_word;
use c_words::{bin, fn2, num};
use lift_blocks::extended;
use lift_parts::{low_word, reg, temp};
use micro_ir::{Bin, Expr, Fn2};
use std::alloc::{AllocError, Global};
use x86_inst::{Count, ShiftOp, Size};

// A rotation to the left.
fn left_word(alloc: Global, size: Size, count: Count) -> Result<Expr, AllocError>
    ensures { IfOk result (λ e. e ≡ shift_word_of Rol size count) }
{
    let high = bin(alloc, Bin::Shl, temp(0), turns_word(alloc, size, count)?)?;
    let low = bin(alloc, Bin::Shr, temp(0), back_word(alloc, size, count)?)?;
    let low = bin(alloc, Bin::Shr, low, num(1))?;
    low_word(alloc, size, bin(alloc, Bin::Add, high, low)?)
}

// A rotation to the right.
fn right_word(alloc: Global, size: Size, count: Count) -> Result<Expr, AllocError>
    ensures { IfOk result (λ e. e ≡ shift_word_of Ror size count) }
{
    let high = bin(alloc, Bin::Shl, temp(0), back_word(alloc, size, count)?)?;
    let high = bin(alloc, Bin::Shl, high, num(1))?;
    let low = bin(alloc, Bin::Shr, temp(0), turns_word(alloc, size, count)?)?;
    low_word(alloc, size, bin(alloc, Bin::Add, high, low)?)
}

// A shift to the left, one to the right, and one with copies of the sign.
fn plain_word(alloc: Global, way: Bin, count: Count) -> Result<Expr, AllocError>
    ensures { IfOk result (λ e. e ≡ bin_of way (temp_word 0) (count_word_of count)) }
{
    bin(alloc, way, temp(0), count_word(alloc, count)?)
}

fn signed_word(alloc: Global, size: Size, count: Expr) -> Result<Expr, AllocError>
    ensures { IfOk result (λ e. e ≡ fn2_of fn.Sar (extended_of size (temp_word 0)) count) }
{
    fn2(alloc, Fn2::Sar, extended(alloc, size, temp(0))?, count)
}

/// The result of a shift.
pub fn shift_word(alloc: Global, op: ShiftOp, size: Size, count: Count) -> Result<Expr, AllocError>
    ensures { IfOk result (λ e. e ≡ shift_word_of op size count) }
{
    match op {
        ShiftOp::Rol => left_word(alloc, size, count),
        ShiftOp::Ror => right_word(alloc, size, count),
        ShiftOp::Shl => low_word(alloc, size, plain_word(alloc, Bin::Shl, count)?),
        ShiftOp::Shr => plain_word(alloc, Bin::Shr, count),
        ShiftOp::Sar => {
            let e = signed_word(alloc, size, count_word(alloc, count)?)?;
            low_word(alloc, size, e)
        }
    }
}

// The lowest bit of a word.
fn lowest_word(alloc: Global, e: Expr) -> Result<Expr, AllocError>
    ensures { IfOk result (λ r. r ≡ lowest_word_of e) }
{
    bin(alloc, Bin::And, e, num(1))
}

/// CF after a shift.
pub fn carry_word(alloc: Global, op: ShiftOp, size: Size, count: Count) -> Result<Expr, AllocError>
    ensures { IfOk result (λ e. e ≡ carry_word_of op size count) }
{
    match op {
        ShiftOp::Rol => lowest_word(alloc, temp(2)),
        ShiftOp::Ror => top_word(alloc, size, temp(2)),
        ShiftOp::Shl => {
            let e = bin(alloc, Bin::Shr, temp(0), rest_word(alloc, size, count)?)?;
            lowest_word(alloc, e)
        }
        ShiftOp::Shr => {
            let e = bin(alloc, Bin::Shr, temp(0), before_word(alloc, count)?)?;
            lowest_word(alloc, e)
        }
        ShiftOp::Sar => {
            let e = signed_word(alloc, size, before_word(alloc, count)?)?;
            lowest_word(alloc, e)
        }
    }
}

// Whether the top bit of the result and another bit differ.
fn differs(alloc: Global, size: Size, other: Expr) -> Result<Expr, AllocError>
    ensures { IfOk result (λ e. e ≡ bin_of op.Xor (top_word_of (bits_of size) (temp_word 2)) other) }
{
    bin(alloc, Bin::Xor, top_word(alloc, size, temp(2))?, other)
}

// The bit of the result below its top one.
fn second_word(alloc: Global, size: Size) -> Result<Expr, AllocError>
    ensures { IfOk result (λ e. e ≡ lowest_word_of (bin_of op.Shr (temp_word 2) (num_of (bits_of size - 2)))) }
{
    let e = bin(alloc, Bin::Shr, temp(2), num(second_place(size)))?;
    lowest_word(alloc, e)
}

/// OF after a shift by 1.
pub fn over_word(alloc: Global, op: ShiftOp, size: Size) -> Result<Expr, AllocError>
    ensures { IfOk result (λ e. e ≡ over_word_of op size) }
{
    match op {
        ShiftOp::Rol => differs(alloc, size, lowest_word(alloc, temp(2))?),
        ShiftOp::Ror => differs(alloc, size, second_word(alloc, size)?),
        ShiftOp::Shl => differs(alloc, size, top_word(alloc, size, temp(0))?),
        ShiftOp::Shr => top_word(alloc, size, temp(0)),
        ShiftOp::Sar => Ok(num(0)),
    }
}

/// A word shifted to the left and filled with the top bits of a register, or to the right and with its low bits.
pub fn double_word(alloc: Global, left: bool, g: u8, count: Count) -> Result<Expr, AllocError>
    ensures { IfOk result (λ e. e ≡ double_word_of left g count) }
{
    let back = back_word(alloc, Size::W, count)?;
    if left {
        let low = bin(alloc, Bin::Shr, reg(g), back)?;
        let low = bin(alloc, Bin::Shr, low, num(1))?;
        bin(alloc, Bin::Add, plain_word(alloc, Bin::Shl, count)?, low)
    } else {
        let high = bin(alloc, Bin::Shl, reg(g), back)?;
        let high = bin(alloc, Bin::Shl, high, num(1))?;
        bin(alloc, Bin::Add, high, plain_word(alloc, Bin::Shr, count)?)
    }
}
