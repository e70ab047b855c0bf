//! Pushes and pops.

ghost use Rattle.std.specs.Prelude.{◌≡◌, IfOk};
ghost use Rattle.lift_blocks.specs.Ends.{goes_on as goes_on_of};
ghost use Rattle.lift.specs.Blocks.{push_stmts, pop_stmts, pops as pops_of, leave_stmts};

use c_words::{bin, num};
use dream_words::{Name, Width};
use lift_blocks::goes_on;
use lift_parts::{push_pushes, push_reads, push_writes, raw_word, reg, temp};
use micro_ir::{Bin, Block, Stmt};
use std::alloc::{AllocError, Global};
use x86_inst::{Operand, Size};

/// PUSH: the operand is kept before ESP falls.
pub fn push(alloc: Global, at: u32, s: Operand) -> Result<Block, AllocError>
    ensures { IfOk result (λ b. b ≡ goes_on_of at (push_stmts s)) }
{
    let mut stmts = Vec::new(alloc);
    push_reads(alloc, &mut stmts, Size::W, s)?;
    stmts.push(Stmt::Set(Name::T(2), raw_word(alloc, Size::W, s)?))?;
    push_pushes(alloc, &mut stmts, temp(2))?;
    Ok(goes_on(at, stmts))
}

/// ESP grows.
pub fn pops(alloc: Global, n: u32) -> Result<Stmt, AllocError>
    ensures { IfOk result (λ s. s ≡ pops_of n) }
{
    Ok(Stmt::Set(Name::Reg(4), bin(alloc, Bin::Add, reg(4), num(n))?))
}

/// POP: ESP grows before the word is written.
pub fn pop(alloc: Global, at: u32, d: Operand) -> Result<Block, AllocError>
    ensures { IfOk result (λ b. b ≡ goes_on_of at (pop_stmts d)) }
{
    let load = Stmt::Load(Name::T(0), Width::W, reg(4));
    let mut stmts = Vec::from_array(alloc, [load, pops(alloc, 4)?])?;
    push_writes(alloc, &mut stmts, Size::W, d, temp(0))?;
    Ok(goes_on(at, stmts))
}

/// LEAVE.
pub fn leave(alloc: Global, at: u32) -> Result<Block, AllocError>
    ensures { IfOk result (λ b. b ≡ goes_on_of at leave_stmts) }
{
    let load = Stmt::Load(Name::T(0), Width::W, reg(5));
    let top = Stmt::Set(Name::Reg(4), bin(alloc, Bin::Add, reg(5), num(4))?);
    let frame = Stmt::Set(Name::Reg(5), temp(0));
    let stmts = Vec::from_array(alloc, [load, top, frame])?;
    Ok(goes_on(at, stmts))
}
