//! Moves.

ghost use Rattle.std.specs.Prelude.{◌≡◌, ◌++◌, if◌then◌else◌, IfOk, OnOk};
ghost use Rattle.c_words.specs.Built.{bin as bin_of, num as num_of};
ghost use Rattle.c_syntax.specs.declared.syntax.CBin.TheVariants as op;
ghost use Rattle.lift_blocks.specs.Ends.{goes_on as goes_on_of};
ghost use Rattle.lift.specs.Blocks.{mov_stmts, lea_stmts, not_stmts, exchanges, xchg_stmts, movx_stmts, widen_word as widen_word_of, spread_word as spread_word_of, swapped_word as swapped_word_of, set_stmts, cmov_stmts};
ghost use Rattle.lift_blocks.specs.Extended.{extended as extended_of};
ghost use Rattle.lift_parts.specs.Parts.{reg as reg_word, raw_word as raw_word_of, value_word as value_word_of, writes};
ghost use Rattle.x86_inst.specs.declared.Operand.TheVariants as o;
ghost use Rattle.x86_inst.specs.declared.Size.TheVariants.{W};
ghost use Rattle.x86_model.specs.Successors.{is_memory as is_memory_operand};

use c_words::{bin, fn1, fn2, num, pick, word_if, word_not};
use dream_words::Name;
use lift_alu::lift_cond;
use lift_blocks::{extended, goes_on};
use lift_parts::{
    address_word, push_pair_reads, push_reads, push_writes, raw_word, reg, temp, value_word,
};
use micro_ir::{Bin, Block, Expr, Fn1, Fn2, Stmt};
use std::alloc::{AllocError, Global};
use x86_inst::{Cond, Mem, Operand, Seg, Size};

/// MOV.
pub fn mov(alloc: Global, at: u32, size: Size, d: Operand, s: Operand) -> Result<Block, AllocError>
    ensures { IfOk result (λ b. b ≡ goes_on_of at (mov_stmts size d s)) }
{
    let mut stmts = Vec::new(alloc);
    push_reads(alloc, &mut stmts, size, s)?;
    push_writes(alloc, &mut stmts, size, d, raw_word(alloc, size, s)?)?;
    Ok(goes_on(at, stmts))
}

// A write and nothing else.
fn only_writes(alloc: Global, at: u32, size: Size, d: Operand, e: Expr) -> Result<Block, AllocError>
    ensures { IfOk result (λ b. b ≡ goes_on_of at (writes size d e)) }
{
    let mut stmts = Vec::new(alloc);
    push_writes(alloc, &mut stmts, size, d, e)?;
    Ok(goes_on(at, stmts))
}

/// LEA: no base of a segment is added.
pub fn lea(alloc: Global, at: u32, size: Size, d: u8, m: Mem) -> Result<Block, AllocError>
    ensures { IfOk result (λ b. b ≡ goes_on_of at (lea_stmts size d m)) }
{
    let place = Mem {
        base: m.base,
        index: m.index,
        scale: m.scale,
        disp: m.disp,
        seg: Seg::None,
    };
    let e = address_word(alloc, place)?;
    only_writes(alloc, at, size, Operand::Reg(d), e)
}

/// NOT.
pub fn not(alloc: Global, at: u32, size: Size, d: Operand) -> Result<Block, AllocError>
    ensures { IfOk result (λ b. b ≡ goes_on_of at (not_stmts size d)) }
{
    let e = word_not(alloc, raw_word(alloc, size, d)?)?;
    let mut stmts = Vec::new(alloc);
    push_reads(alloc, &mut stmts, size, d)?;
    push_writes(alloc, &mut stmts, size, d, e)?;
    Ok(goes_on(at, stmts))
}

fn is_memory(o: Operand) -> bool
    ensures { result ≡ is_memory_operand o }
{
    matches!(o, Operand::Mem(_))
}

// Two kept words are written, memory before a register of its address changes.
fn push_exchange(
    alloc: Global,
    stmts: &mut Vec<Stmt>,
    size: Size,
    d: Operand,
    s: Operand,
) -> Result<(), AllocError>
    ensures { OnOk result (stmts.new.items ≡ stmts.old.items ++ exchanges size d s) }
{
    if is_memory(d) {
        push_writes(alloc, stmts, size, d, temp(3))?;
        push_writes(alloc, stmts, size, s, temp(2))
    } else {
        push_writes(alloc, stmts, size, s, temp(2))?;
        push_writes(alloc, stmts, size, d, temp(3))
    }
}

/// XCHG: both are kept before one is written.
pub fn xchg(alloc: Global, at: u32, size: Size, d: Operand, s: Operand) -> Result<Block, AllocError>
    ensures { IfOk result (λ b. b ≡ goes_on_of at (xchg_stmts size d s)) }
{
    let mut stmts = Vec::new(alloc);
    push_pair_reads(alloc, &mut stmts, size, d, s)?;
    stmts.push(Stmt::Set(Name::T(2), raw_word(alloc, size, d)?))?;
    stmts.push(Stmt::Set(Name::T(3), raw_word(alloc, size, s)?))?;
    push_exchange(alloc, &mut stmts, size, d, s)?;
    Ok(goes_on(at, stmts))
}

// An operand's value, extended by its sign or by zeros.
fn widened(alloc: Global, signed: bool, from: Size, s: Operand) -> Result<Expr, AllocError>
    ensures { IfOk result (λ r. r ≡ (if signed then extended_of from (raw_word_of from s) else value_word_of from s)) }
{
    if signed {
        extended(alloc, from, raw_word(alloc, from, s)?)
    } else {
        value_word(alloc, from, s)
    }
}

/// MOVSX and MOVZX.
pub fn movx(
    alloc: Global,
    at: u32,
    signed: bool,
    from: Size,
    to: Size,
    d: u8,
    s: Operand,
) -> Result<Block, AllocError>
    ensures { IfOk result (λ b. b ≡ goes_on_of at (movx_stmts signed from to d s)) }
{
    let e = widened(alloc, signed, from, s)?;
    let mut stmts = Vec::new(alloc);
    push_reads(alloc, &mut stmts, from, s)?;
    push_writes(alloc, &mut stmts, to, Operand::Reg(d), e)?;
    Ok(goes_on(at, stmts))
}

// The accumulator, extended by its sign from the size below.
fn widen_word(alloc: Global, size: Size) -> Result<Expr, AllocError>
    ensures { IfOk result (λ r. r ≡ widen_word_of size) }
{
    match size {
        Size::B => extended(alloc, Size::B, reg(0)),
        Size::H => extended(alloc, Size::B, reg(0)),
        Size::W => extended(alloc, Size::H, reg(0)),
    }
}

/// CBW and CWDE.
pub fn widen(alloc: Global, at: u32, size: Size) -> Result<Block, AllocError>
    ensures { IfOk result (λ b. b ≡ goes_on_of at (writes size (o.Reg 0) (widen_word_of size))) }
{
    let e = widen_word(alloc, size)?;
    only_writes(alloc, at, size, Operand::Reg(0), e)
}

/// CWD and CDQ.
pub fn spread(alloc: Global, at: u32, size: Size) -> Result<Block, AllocError>
    ensures { IfOk result (λ b. b ≡ goes_on_of at (writes size (o.Reg 2) (spread_word_of size))) }
{
    let wide = extended(alloc, size, reg(0))?;
    let e = fn2(alloc, Fn2::Sar, wide, num(31))?;
    only_writes(alloc, at, size, Operand::Reg(2), e)
}

// A word shifted to the left, and one shifted to the right.
fn left(alloc: Global, n: u8, k: u32) -> Result<Expr, AllocError>
    ensures { IfOk result (λ r. r ≡ bin_of op.Shl (reg_word n) (num_of k)) }
{
    bin(alloc, Bin::Shl, reg(n), num(k))
}

fn right(alloc: Global, n: u8, k: u32) -> Result<Expr, AllocError>
    ensures { IfOk result (λ r. r ≡ bin_of op.Shr (reg_word n) (num_of k)) }
{
    bin(alloc, Bin::Shr, reg(n), num(k))
}

// A register with its bytes in the other order.
fn swapped_word(alloc: Global, n: u8) -> Result<Expr, AllocError>
    ensures { IfOk result (λ r. r ≡ swapped_word_of (reg_word n)) }
{
    let third = bin(alloc, Bin::And, left(alloc, n, 8)?, num(0xff_0000))?;
    let second = bin(alloc, Bin::And, right(alloc, n, 8)?, num(0xff00))?;
    let low = bin(alloc, Bin::Or, second, right(alloc, n, 24)?)?;
    let lower = bin(alloc, Bin::Or, third, low)?;
    bin(alloc, Bin::Or, left(alloc, n, 24)?, lower)
}

/// BSWAP.
pub fn bswap(alloc: Global, at: u32, n: u8) -> Result<Block, AllocError>
    ensures { IfOk result (λ b. b ≡ goes_on_of at (writes W (o.Reg n) (swapped_word_of (reg_word n)))) }
{
    let e = swapped_word(alloc, n)?;
    only_writes(alloc, at, Size::W, Operand::Reg(n), e)
}

/// SETcc.
pub fn set(alloc: Global, at: u32, c: Cond, d: Operand) -> Result<Block, AllocError>
    ensures { IfOk result (λ b. b ≡ goes_on_of at (set_stmts c.0 d)) }
{
    let e = word_if(alloc, lift_cond(alloc, c)?)?;
    only_writes(alloc, at, Size::B, d, e)
}

/// CMOVcc: where the condition is false the register gets its own value.
pub fn cmov(
    alloc: Global,
    at: u32,
    c: Cond,
    size: Size,
    d: u8,
    s: Operand,
) -> Result<Block, AllocError>
    ensures { IfOk result (λ b. b ≡ goes_on_of at (cmov_stmts c.0 size d s)) }
{
    let new = raw_word(alloc, size, s)?;
    let old = raw_word(alloc, size, Operand::Reg(d))?;
    let e = pick(alloc, lift_cond(alloc, c)?, new, old)?;
    let mut stmts = Vec::new(alloc);
    push_reads(alloc, &mut stmts, size, s)?;
    push_writes(alloc, &mut stmts, size, Operand::Reg(d), e)?;
    Ok(goes_on(at, stmts))
}
