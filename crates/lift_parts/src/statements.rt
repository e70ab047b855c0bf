//! Statements by operands: reads, writes and pushes.

ghost use Rattle.std.specs.Prelude.{◌≡◌, ◌++◌, IfOk, OnOk};
ghost use Rattle.lift_parts.specs.Parts.{reads, pair_reads, with_low_word as with_low_word_of, with_second_word as with_second_word_of, set_part as set_part_of, writes, pushes};
ghost use Rattle.x86_inst.specs.declared.Size.TheVariants.{B};
ghost use Rattle.x86_model.specs.Operands.{width_of as width_by};
ghost use Rattle.x86_model.specs.Successors.{is_memory as is_memory_operand};

use crate::words::{address_word, reg};
use c_words::{bin, num};
use dream_words::{Name, Width};
use micro_ir::{Bin, Expr, Stmt};
use std::alloc::{AllocError, Global};
use x86_inst::{Operand, Size};

/// The width of an access of a size.
pub fn width_of(size: Size) -> Width
    ensures { result ≡ width_by size }
{
    match size {
        Size::B => Width::B,
        Size::H => Width::H,
        Size::W => Width::W,
    }
}

/// Puts the read of an operand at the end, where it is memory.
pub fn push_reads(
    alloc: Global,
    stmts: &mut Vec<Stmt>,
    size: Size,
    o: Operand,
) -> Result<(), AllocError>
    ensures { OnOk result (stmts.new.items ≡ stmts.old.items ++ reads size o) }
{
    match o {
        Operand::Mem(m) => {
            stmts.push(Stmt::Load(Name::T(0), width_of(size), address_word(alloc, m)?))?;
            Ok(())
        }
        Operand::Reg(_) => Ok(()),
        Operand::Imm(_) => Ok(()),
    }
}

// Whether an operand is memory.
fn is_memory(o: Operand) -> bool
    ensures { result ≡ is_memory_operand o }
{
    matches!(o, Operand::Mem(_))
}

/// Puts the read of that one of two operands which is memory at the end.
pub fn push_pair_reads(
    alloc: Global,
    stmts: &mut Vec<Stmt>,
    size: Size,
    d: Operand,
    s: Operand,
) -> Result<(), AllocError>
    ensures { OnOk result (stmts.new.items ≡ stmts.old.items ++ pair_reads size d s) }
{
    if is_memory(d) {
        push_reads(alloc, stmts, size, d)
    } else {
        push_reads(alloc, stmts, size, s)
    }
}

// A register with a word for the low bits that a mask keeps.
fn with_low_word(alloc: Global, keep: u32, mask: u32, n: u8, e: Expr) -> Result<Expr, AllocError>
    ensures { IfOk result (λ r. r ≡ with_low_word_of keep mask n e) }
{
    let kept = bin(alloc, Bin::And, reg(n), num(keep))?;
    let low = bin(alloc, Bin::And, e, num(mask))?;
    bin(alloc, Bin::Or, kept, low)
}

// A register with a word for its second byte.
fn with_second_word(alloc: Global, n: u8, e: Expr) -> Result<Expr, AllocError>
    ensures { IfOk result (λ r. r ≡ with_second_word_of n e) }
{
    let kept = bin(alloc, Bin::And, reg(n), num(0xffff_0000))?;
    let byte = bin(alloc, Bin::And, e, num(0xff))?;
    let second = bin(alloc, Bin::Shl, byte, num(8))?;
    let lowest = bin(alloc, Bin::And, reg(n), num(0xff))?;
    let low = bin(alloc, Bin::Or, second, lowest)?;
    bin(alloc, Bin::Or, kept, low)
}

// Sets al, cl, dl, bl, ah, ch, dh or bh.
fn set_byte(alloc: Global, n: u8, e: Expr) -> Result<Stmt, AllocError>
    ensures { IfOk result (λ s. s ≡ set_part_of B n e) }
{
    if n < 4 {
        Ok(Stmt::Set(Name::Reg(n), with_low_word(alloc, 0xffff_ff00, 0xff, n, e)?))
    } else {
        Ok(Stmt::Set(Name::Reg(n - 4), with_second_word(alloc, n - 4, e)?))
    }
}

/// Sets a register of a size to a word; its other bits stay.
pub fn set_part(alloc: Global, size: Size, n: u8, e: Expr) -> Result<Stmt, AllocError>
    ensures { IfOk result (λ s. s ≡ set_part_of size n e) }
{
    match size {
        Size::B => set_byte(alloc, n, e),
        Size::H => Ok(Stmt::Set(
            Name::Reg(n),
            with_low_word(alloc, 0xffff_0000, 0xffff, n, e)?,
        )),
        Size::W => Ok(Stmt::Set(Name::Reg(n), e)),
    }
}

/// Puts the write of a word to an operand at the end; none where that is a number.
pub fn push_writes(
    alloc: Global,
    stmts: &mut Vec<Stmt>,
    size: Size,
    o: Operand,
    e: Expr,
) -> Result<(), AllocError>
    ensures { OnOk result (stmts.new.items ≡ stmts.old.items ++ writes size o e) }
{
    match o {
        Operand::Reg(n) => {
            stmts.push(set_part(alloc, size, n, e)?)?;
            Ok(())
        }
        Operand::Mem(m) => {
            stmts.push(Stmt::Store(width_of(size), address_word(alloc, m)?, e))?;
            Ok(())
        }
        Operand::Imm(_) => Ok(()),
    }
}

/// Puts the push of a word at the end. The word is evaluated after ESP fell.
pub fn push_pushes(alloc: Global, stmts: &mut Vec<Stmt>, e: Expr) -> Result<(), AllocError>
    ensures { OnOk result (stmts.new.items ≡ stmts.old.items ++ pushes e) }
{
    stmts.push(Stmt::Set(Name::Reg(4), bin(alloc, Bin::Sub, reg(4), num(4))?))?;
    stmts.push(Stmt::Store(Width::W, reg(4), e))?;
    Ok(())
}
