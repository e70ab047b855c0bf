//! Products.

ghost use Rattle.std.specs.Prelude.{◌≡◌, ◌^◌, ◌<◌, ℕ, true, [], ◌∷◌, IfOk};
ghost use Rattle.lift_blocks.specs.Ends.{goes_on as goes_on_of};
ghost use Rattle.lift_parts.specs.Lifted.{AreBlocksOf};
ghost use Rattle.lift_products.specs.Products.{product_word as product_word_of, high_function as high_function_of, high_product_word as high_product_word_of, high_word as high_word_of, unfit_high as unfit_high_of, wide_overflow as wide_overflow_of, wide_stmts, times_overflow as times_overflow_of, times_stmts};
ghost use Rattle.x86_formed.specs.Formed.{HasSpelling};
ghost use Rattle.x86_inst.specs.declared.Inst.TheVariants as inst;

use crate::words::{factor, push_overflow, push_pair_writes, unfit_signed};
use c_words::{bin, cmp, fn2, num, word_if};
use dream_words::Name;
use lift_blocks::goes_on;
use lift_parts::{push_reads, push_writes, temp};
use micro_ir::{Bin, Block, Cmp, Expr, Fn2, Stmt};
use std::alloc::{AllocError, Global};
use x86_inst::{Operand, Size};

// The product of two operands, modulo 2^32.
fn product_word(
    alloc: Global,
    signed: bool,
    size: Size,
    p: Operand,
    q: Operand,
) -> Result<Expr, AllocError>
    ensures { IfOk result (λ e. e ≡ product_word_of signed size p q) }
{
    let p = factor(alloc, signed, size, p)?;
    let q = factor(alloc, signed, size, q)?;
    bin(alloc, Bin::Mul, p, q)
}

// The function that gives the high word of a product.
fn high_function(signed: bool) -> Fn2
    ensures { result ≡ high_function_of signed }
{
    if signed { Fn2::Mulhs } else { Fn2::Mulhu }
}

// The high word of the product of two operands of 32 bits.
fn high_product_word(
    alloc: Global,
    signed: bool,
    p: Operand,
    q: Operand,
) -> Result<Expr, AllocError>
    ensures { IfOk result (λ e. e ≡ high_product_word_of signed p q) }
{
    let p = factor(alloc, signed, Size::W, p)?;
    let q = factor(alloc, signed, Size::W, q)?;
    fn2(alloc, high_function(signed), p, q)
}

// A word whose low part is the high part of the product, where t1 is the product.
fn high_word(
    alloc: Global,
    signed: bool,
    size: Size,
    p: Operand,
    q: Operand,
) -> Result<Expr, AllocError>
    ensures { IfOk result (λ e. e ≡ high_word_of signed size p q) }
{
    match size {
        Size::B => bin(alloc, Bin::Shr, temp(1), num(8)),
        Size::H => bin(alloc, Bin::Shr, temp(1), num(16)),
        Size::W => high_product_word(alloc, signed, p, q),
    }
}

// 1 where a high word isn't made of copies of the top bit of t1.
fn unfit_high(alloc: Global, high: Expr) -> Result<Expr, AllocError>
    ensures { IfOk result (λ e. e ≡ unfit_high_of high) }
{
    let copies = fn2(alloc, Fn2::Sar, temp(1), num(31))?;
    word_if(alloc, cmp(Cmp::Ne, high, copies))
}

// The word of CF and OF after IMUL of one operand.
fn signed_overflow(alloc: Global, size: Size) -> Result<Expr, AllocError>
    ensures { IfOk result (λ e. e ≡ wide_overflow_of true size) }
{
    match size {
        Size::B => unfit_signed(alloc, Size::B),
        Size::H => unfit_signed(alloc, Size::H),
        Size::W => unfit_high(alloc, temp(2)),
    }
}

// The word of CF and OF after MUL, and after IMUL of one operand.
fn wide_overflow(alloc: Global, signed: bool, size: Size) -> Result<Expr, AllocError>
    ensures { IfOk result (λ e. e ≡ wide_overflow_of signed size) }
{
    if signed {
        signed_overflow(alloc, size)
    } else {
        word_if(alloc, cmp(Cmp::Ne, temp(2), num(0)))
    }
}

// The block of MUL, and of IMUL of one operand.
fn wide(alloc: Global, at: u32, signed: bool, size: Size, s: Operand) -> Result<Block, AllocError>
    ensures { IfOk result (λ b. b ≡ goes_on_of at (wide_stmts signed size s)) }
{
    let product = product_word(alloc, signed, size, Operand::Reg(0), s)?;
    let high = high_word(alloc, signed, size, Operand::Reg(0), s)?;
    let overflow = wide_overflow(alloc, signed, size)?;
    let mut stmts = Vec::new(alloc);
    push_reads(alloc, &mut stmts, size, s)?;
    stmts.push(Stmt::Set(Name::T(1), product))?;
    stmts.push(Stmt::Set(Name::T(2), high))?;
    push_overflow(alloc, &mut stmts, overflow)?;
    push_pair_writes(alloc, &mut stmts, size)?;
    Ok(goes_on(at, stmts))
}

/// MUL.
pub fn mul(alloc: Global, at: u32, size: Size, s: Operand) -> Result<Block, AllocError>
    ensures { IfOk result (λ b. (next : ℕ) → next < 2 ^ 32 → HasSpelling (inst.Mul size s) → AreBlocksOf (inst.Mul size s) at next (b ∷ [])) }
{
    let b = wide(alloc, at, false, size, s)?;
    Ok(b)
}

/// IMUL of one operand.
pub fn imul_wide(alloc: Global, at: u32, size: Size, s: Operand) -> Result<Block, AllocError>
    ensures { IfOk result (λ b. (next : ℕ) → next < 2 ^ 32 → HasSpelling (inst.ImulWide size s) → AreBlocksOf (inst.ImulWide size s) at next (b ∷ [])) }
{
    let b = wide(alloc, at, true, size, s)?;
    Ok(b)
}

// The word of CF and OF after IMUL of two and of three operands.
fn times_overflow(alloc: Global, size: Size, p: Operand, q: Operand) -> Result<Expr, AllocError>
    ensures { IfOk result (λ e. e ≡ times_overflow_of size p q) }
{
    match size {
        Size::B => unfit_signed(alloc, Size::B),
        Size::H => unfit_signed(alloc, Size::H),
        Size::W => unfit_high(alloc, high_product_word(alloc, true, p, q)?),
    }
}

// The block in which a register gets the low part of the signed product of two operands, of which one is read.
fn times(
    alloc: Global,
    at: u32,
    size: Size,
    d: u8,
    p: Operand,
    q: Operand,
    s: Operand,
) -> Result<Block, AllocError>
    ensures { IfOk result (λ b. b ≡ goes_on_of at (times_stmts size d p q s)) }
{
    let product = product_word(alloc, true, size, p, q)?;
    let overflow = times_overflow(alloc, size, p, q)?;
    let mut stmts = Vec::new(alloc);
    push_reads(alloc, &mut stmts, size, s)?;
    stmts.push(Stmt::Set(Name::T(1), product))?;
    push_overflow(alloc, &mut stmts, overflow)?;
    push_writes(alloc, &mut stmts, size, Operand::Reg(d), temp(1))?;
    Ok(goes_on(at, stmts))
}

/// IMUL of two operands.
pub fn imul2(alloc: Global, at: u32, size: Size, d: u8, s: Operand) -> Result<Block, AllocError>
    ensures { IfOk result (λ b. (next : ℕ) → next < 2 ^ 32 → HasSpelling (inst.Imul2 size d s) → AreBlocksOf (inst.Imul2 size d s) at next (b ∷ [])) }
{
    let b = times(alloc, at, size, d, Operand::Reg(d), s, s)?;
    Ok(b)
}

/// IMUL of three operands.
pub fn imul3(
    alloc: Global,
    at: u32,
    size: Size,
    d: u8,
    s: Operand,
    k: u32,
) -> Result<Block, AllocError>
    ensures { IfOk result (λ b. (next : ℕ) → next < 2 ^ 32 → HasSpelling (inst.Imul3 size d s k) → AreBlocksOf (inst.Imul3 size d s k) at next (b ∷ [])) }
{
    let b = times(alloc, at, size, d, s, Operand::Imm(k), s)?;
    Ok(b)
}
