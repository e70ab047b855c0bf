//! Arithmetic.

ghost use Rattle.std.specs.Prelude.{◌≡◌, [], ◌∷◌, ◌++◌, IfOk, OnOk};
ghost use Rattle.dream_words.specs.declared.machine.Name.TheVariants.{Flag};
ghost use Rattle.lift_blocks.specs.Ends.{goes_on as goes_on_of};
ghost use Rattle.lift_blocks.specs.Flags.{sets_but_carry, sets_flags, computes};
ghost use Rattle.lift.specs.Blocks.{alu_stmts, test_stmts, step_stmts, neg_stmts, carry_word as carry_word_of};
ghost use Rattle.lift_alu.specs.Words.{alu_words as alu_words_of};
ghost use Rattle.micro_ir.specs.declared.flow.Stmt.TheVariants as stmt;
ghost use Rattle.x86_inst.specs.declared.AluOp.TheVariants as op;
ghost use Rattle.x86_model.specs.Operands.{bits_of};
ghost use Rattle.x86_model.specs.Successors.{writes as writes_operand};

use c_words::{cmp, num, word_if};
use dream_words::Name;
use lift_alu::{AluLift, lift_alu};
use lift_blocks::{goes_on, push_but_carry, push_flags};
use lift_parts::{flag, push_pair_reads, push_reads, push_writes, raw_word, temp};
use micro_ir::{Block, Cmp, Expr, Stmt};
use std::alloc::{AllocError, Global};
use x86_inst::{AluOp, CarryOp, Operand, Size};

// The words of an operation at a size.
fn alu_words(alloc: Global, op: AluOp, size: Size, a: Expr, b: Expr) -> Result<AluLift, AllocError>
    ensures { IfOk result (λ l. l ≡ alu_words_of op (bits_of size) a b) }
{
    match size {
        Size::B => lift_alu::<8>(alloc, op, a, b),
        Size::H => lift_alu::<16>(alloc, op, a, b),
        Size::W => lift_alu::<32>(alloc, op, a, b),
    }
}

// Keeps the result, sets all flags, and writes the result.
fn push_computed(
    alloc: Global,
    stmts: &mut Vec<Stmt>,
    size: Size,
    d: Operand,
    l: AluLift,
) -> Result<(), AllocError>
    ensures { OnOk result (stmts.new.items ≡ stmts.old.items ++ computes size d (sets_flags l) l.result) }
{
    stmts.push(Stmt::Set(Name::T(2), l.result))?;
    push_but_carry(stmts, l.p, l.z, l.s, l.o)?;
    stmts.push(Stmt::Set(Name::Flag(0), l.c))?;
    push_writes(alloc, stmts, size, d, temp(2))
}

// The same, but CF stays.
fn push_stepped(
    alloc: Global,
    stmts: &mut Vec<Stmt>,
    size: Size,
    d: Operand,
    l: AluLift,
) -> Result<(), AllocError>
    ensures { OnOk result (stmts.new.items ≡ stmts.old.items ++ computes size d (sets_but_carry l) l.result) }
{
    stmts.push(Stmt::Set(Name::T(2), l.result))?;
    push_but_carry(stmts, l.p, l.z, l.s, l.o)?;
    push_writes(alloc, stmts, size, d, temp(2))
}

// Every operation but Cmp writes its operand.
fn writes(op: AluOp) -> bool
    ensures { result ≡ writes_operand op }
{
    !matches!(op, AluOp::Cmp)
}

/// ADD, OR, ADC, SBB, AND, SUB, XOR, and CMP, which writes nothing.
pub fn alu(
    alloc: Global,
    at: u32,
    op: AluOp,
    size: Size,
    d: Operand,
    s: Operand,
) -> Result<Block, AllocError>
    ensures { IfOk result (λ b. b ≡ goes_on_of at (alu_stmts op size d s)) }
{
    let l = alu_words(
        alloc,
        op,
        size,
        raw_word(alloc, size, d)?,
        raw_word(alloc, size, s)?,
    )?;
    let mut stmts = Vec::new(alloc);
    push_pair_reads(alloc, &mut stmts, size, d, s)?;
    if writes(op) {
        push_computed(alloc, &mut stmts, size, d, l)?;
        Ok(goes_on(at, stmts))
    } else {
        push_flags(&mut stmts, l)?;
        Ok(goes_on(at, stmts))
    }
}

/// TEST.
pub fn test(alloc: Global, at: u32, size: Size, d: Operand, s: Operand) -> Result<Block, AllocError>
    ensures { IfOk result (λ b. b ≡ goes_on_of at (test_stmts size d s)) }
{
    let l = alu_words(
        alloc,
        AluOp::And,
        size,
        raw_word(alloc, size, d)?,
        raw_word(alloc, size, s)?,
    )?;
    let mut stmts = Vec::new(alloc);
    push_pair_reads(alloc, &mut stmts, size, d, s)?;
    push_flags(&mut stmts, l)?;
    Ok(goes_on(at, stmts))
}

// INC and DEC keep CF.
fn step(alloc: Global, at: u32, op: AluOp, size: Size, d: Operand) -> Result<Block, AllocError>
    ensures { IfOk result (λ b. b ≡ goes_on_of at (step_stmts op size d)) }
{
    let l = alu_words(alloc, op, size, raw_word(alloc, size, d)?, num(1))?;
    let mut stmts = Vec::new(alloc);
    push_reads(alloc, &mut stmts, size, d)?;
    push_stepped(alloc, &mut stmts, size, d, l)?;
    Ok(goes_on(at, stmts))
}

/// INC.
pub fn inc(alloc: Global, at: u32, size: Size, d: Operand) -> Result<Block, AllocError>
    ensures { IfOk result (λ b. b ≡ goes_on_of at (step_stmts op.Add size d)) }
{
    step(alloc, at, AluOp::Add, size, d)
}

/// DEC.
pub fn dec(alloc: Global, at: u32, size: Size, d: Operand) -> Result<Block, AllocError>
    ensures { IfOk result (λ b. b ≡ goes_on_of at (step_stmts op.Sub size d)) }
{
    step(alloc, at, AluOp::Sub, size, d)
}

/// NEG.
pub fn neg(alloc: Global, at: u32, size: Size, d: Operand) -> Result<Block, AllocError>
    ensures { IfOk result (λ b. b ≡ goes_on_of at (neg_stmts size d)) }
{
    let l = alu_words(alloc, AluOp::Sub, size, num(0), raw_word(alloc, size, d)?)?;
    let mut stmts = Vec::new(alloc);
    push_reads(alloc, &mut stmts, size, d)?;
    push_computed(alloc, &mut stmts, size, d, l)?;
    Ok(goes_on(at, stmts))
}

// The carry after CMC, CLC or STC.
fn carry_word(alloc: Global, op: CarryOp) -> Result<Expr, AllocError>
    ensures { IfOk result (λ e. e ≡ carry_word_of op) }
{
    match op {
        CarryOp::Flip => word_if(alloc, cmp(Cmp::Eq, flag(0), num(0))),
        CarryOp::Clear => Ok(num(0)),
        CarryOp::Put => Ok(num(1)),
    }
}

/// CMC, CLC and STC.
pub fn carry(alloc: Global, at: u32, op: CarryOp) -> Result<Block, AllocError>
    ensures { IfOk result (λ b. b ≡ goes_on_of at (stmt.Set (Flag 0) (carry_word_of op) ∷ [])) }
{
    let stmts = Vec::from_array(alloc, [Stmt::Set(Name::Flag(0), carry_word(alloc, op)?)])?;
    Ok(goes_on(at, stmts))
}
