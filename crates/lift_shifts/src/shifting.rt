//! The blocks of shifts and double shifts.

ghost use Rattle.std.specs.Prelude.{◌≡◌, ◌++◌, IfOk, OnOk};
ghost use Rattle.lift_blocks.specs.Ends.{goes_on as goes_on_of};
ghost use Rattle.lift_blocks.specs.Flags.{computes};
ghost use Rattle.lift_shifts.specs.Shifts.{takes, rotates as rotates_by, sets_shifted, shift_stmts, double_carry_word as double_carry_word_of, double_stmts};

use crate::amounts::is_none;
use crate::conditions::push_shifted;
use crate::results::{carry_word, double_word, over_word, shift_word};
use dream_words::Name;
use lift_blocks::goes_on;
use lift_parts::{push_reads, push_writes, temp, value_word};
use micro_ir::{Block, Expr, Stmt};
use std::alloc::{AllocError, Global};
use x86_inst::{Count, Operand, ShiftOp, Size};

// Takes an operand's value to t0.
fn push_takes(
    alloc: Global,
    stmts: &mut Vec<Stmt>,
    size: Size,
    d: Operand,
) -> Result<(), AllocError>
    ensures { OnOk result (stmts.new.items ≡ stmts.old.items ++ takes size d) }
{
    match d {
        Operand::Mem(_) => push_reads(alloc, stmts, size, d),
        Operand::Reg(_) => {
            stmts.push(Stmt::Set(Name::T(0), value_word(alloc, size, d)?))?;
            Ok(())
        }
        Operand::Imm(_) => {
            stmts.push(Stmt::Set(Name::T(0), value_word(alloc, size, d)?))?;
            Ok(())
        }
    }
}

// The result, CF and OF.
#[derive(Drop)]
struct Shifted {
    result: Expr,
    carry: Expr,
    over: Expr,
}

// Takes the operand, keeps the result, sets the flags, and writes the result.
fn push_computed(
    alloc: Global,
    stmts: &mut Vec<Stmt>,
    rotates: bool,
    size: Size,
    d: Operand,
    count: Count,
    s: Shifted,
) -> Result<(), AllocError>
    ensures { OnOk result (stmts.new.items ≡ stmts.old.items ++ (takes size d ++ computes size d (sets_shifted rotates size count s.carry s.over) s.result)) }
{
    push_takes(alloc, stmts, size, d)?;
    stmts.push(Stmt::Set(Name::T(2), s.result))?;
    push_shifted(alloc, stmts, rotates, size, count, s.carry, s.over)?;
    push_writes(alloc, stmts, size, d, temp(2))
}

// A rotation.
fn rotates(op: ShiftOp) -> bool
    ensures { result ≡ rotates_by op }
{
    match op {
        ShiftOp::Rol => true,
        ShiftOp::Ror => true,
        ShiftOp::Shl => false,
        ShiftOp::Shr => false,
        ShiftOp::Sar => false,
    }
}

/// The block of a shift or rotation. By a number that is 0 modulo 32 the operand is read and nothing more.
pub fn shift_block(
    alloc: Global,
    at: u32,
    op: ShiftOp,
    size: Size,
    d: Operand,
    count: Count,
) -> Result<Block, AllocError>
    ensures { IfOk result (λ b. b ≡ goes_on_of at (shift_stmts op size d count)) }
{
    let mut stmts = Vec::new(alloc);
    if is_none(count) {
        push_reads(alloc, &mut stmts, size, d)?;
        return Ok(goes_on(at, stmts));
    }
    let shifted = Shifted {
        result: shift_word(alloc, op, size, count)?,
        carry: carry_word(alloc, op, size, count)?,
        over: over_word(alloc, op, size)?,
    };
    push_computed(alloc, &mut stmts, rotates(op), size, d, count, shifted)?;
    Ok(goes_on(at, stmts))
}

// CF after a double shift.
fn double_carry_word(alloc: Global, left: bool, count: Count) -> Result<Expr, AllocError>
    ensures { IfOk result (λ e. e ≡ double_carry_word_of left count) }
{
    if left {
        carry_word(alloc, ShiftOp::Shl, Size::W, count)
    } else {
        carry_word(alloc, ShiftOp::Shr, Size::W, count)
    }
}

/// The block of a double shift. By a number that is 0 modulo 32 the operand is read and nothing more.
pub fn double_block(
    alloc: Global,
    at: u32,
    left: bool,
    d: Operand,
    g: u8,
    count: Count,
) -> Result<Block, AllocError>
    ensures { IfOk result (λ b. b ≡ goes_on_of at (double_stmts left d g count)) }
{
    let mut stmts = Vec::new(alloc);
    if is_none(count) {
        push_reads(alloc, &mut stmts, Size::W, d)?;
        return Ok(goes_on(at, stmts));
    }
    let shifted = Shifted {
        result: double_word(alloc, left, g, count)?,
        carry: double_carry_word(alloc, left, count)?,
        over: over_word(alloc, ShiftOp::Shl, Size::W)?,
    };
    push_computed(alloc, &mut stmts, false, Size::W, d, count, shifted)?;
    Ok(goes_on(at, stmts))
}
