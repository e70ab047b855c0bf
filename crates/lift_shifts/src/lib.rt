//! The blocks of shifts and rotations.
//! Given are a shift, its address and its operands.
//! Promised is a block that has its effect from every state, is never stuck, and leads to the next address.
#![tactic(auto)]

mod amounts;
mod conditions;
mod results;
mod shifting;

ghost use Rattle.std.specs.Prelude.{ℕ, ◌<◌, ◌^◌, [], ◌∷◌, IfOk};
ghost use Rattle.lift_parts.specs.Lifted.{AreBlocksOf};
ghost use Rattle.x86_formed.specs.Formed.{HasSpelling};
ghost use Rattle.x86_inst.specs.declared.Inst.TheVariants as inst;

use micro_ir::Block;
use std::alloc::{AllocError, Global};
use x86_inst::{Count, Operand, ShiftOp, Size};

/// The block of SHL, SHR, SAR, ROL or ROR at an address.
pub fn shift(
    alloc: Global,
    at: u32,
    op: ShiftOp,
    size: Size,
    d: Operand,
    count: Count,
) -> Result<Block, AllocError>
    ensures { IfOk result (λ b. (next : ℕ) → next < 2 ^ 32 → HasSpelling (inst.Shift op size d count) → AreBlocksOf (inst.Shift op size d count) at next (b ∷ [])) }
{
    shifting::shift_block(alloc, at, op, size, d, count)
}

/// The block of SHLD or, where it isn't to the left, SHRD at an address. The bits that fill come from a register of 32 bits.
pub fn double_shift(
    alloc: Global,
    at: u32,
    left: bool,
    d: Operand,
    g: u8,
    count: Count,
) -> Result<Block, AllocError>
    ensures { IfOk result (λ b. (next : ℕ) → next < 2 ^ 32 → HasSpelling (inst.DShift left d g count) → AreBlocksOf (inst.DShift left d g count) at next (b ∷ [])) }
{
    shifting::double_block(alloc, at, left, d, g, count)
}
