//! Quotients.

ghost use Rattle.std.specs.Prelude.{◌≡◌, ◌^◌, ◌<◌, ℕ, [], ◌∷◌, IfOk};
ghost use Rattle.lift_blocks.specs.Ends.{goes_on as goes_on_of};
ghost use Rattle.lift_parts.specs.Lifted.{AreBlocksOf};
ghost use Rattle.lift_products.specs.Quotients.{low_dividend as low_dividend_of, high_extension as high_extension_of, high_dividend as high_dividend_of, divided_word as divided_word_of, bad_function as bad_function_of, quotient_function as quotient_function_of, remainder_function as remainder_function_of, unfit as unfit_of, unfit_unsigned as unfit_unsigned_of, bad_word as bad_word_of, divide_stmts};
ghost use Rattle.x86_formed.specs.Formed.{HasSpelling};
ghost use Rattle.x86_inst.specs.declared.Inst.TheVariants as inst;
ghost use Rattle.x86_inst.specs.declared.Size.TheVariants as size_of;

use crate::words::{factor, push_pair_writes, unfit_signed};
use c_words::{bin, cmp, fn2, fn3, num, word_if};
use dream_words::Name;
use lift_blocks::{extended, goes_on};
use lift_parts::{low_word, push_reads, reg, temp};
use micro_ir::{Bin, Block, Cmp, Expr, Fn2, Fn3, Stmt};
use std::alloc::{AllocError, Global};
use x86_inst::{Operand, Size};

// AX extended to a word.
fn ax(alloc: Global, signed: bool) -> Result<Expr, AllocError>
    ensures { IfOk result (λ e. e ≡ low_dividend_of signed size_of.B) }
{
    if signed {
        extended(alloc, Size::H, reg(0))
    } else {
        low_word(alloc, Size::H, reg(0))
    }
}

// DX:AX as a word.
fn dx_ax(alloc: Global, signed: bool) -> Result<Expr, AllocError>
    ensures { IfOk result (λ e. e ≡ low_dividend_of signed size_of.H) }
{
    let high = bin(alloc, Bin::Shl, reg(2), num(16))?;
    let low = low_word(alloc, Size::H, reg(0))?;
    bin(alloc, Bin::Or, high, low)
}

// The low word of the dividend.
fn low_dividend(alloc: Global, signed: bool, size: Size) -> Result<Expr, AllocError>
    ensures { IfOk result (λ e. e ≡ low_dividend_of signed size) }
{
    match size {
        Size::B => ax(alloc, signed),
        Size::H => dx_ax(alloc, signed),
        Size::W => Ok(reg(0)),
    }
}

// What extends a low word.
fn high_extension(alloc: Global, signed: bool, e: Expr) -> Result<Expr, AllocError>
    ensures { IfOk result (λ r. r ≡ high_extension_of signed e) }
{
    if signed {
        fn2(alloc, Fn2::Sar, e, num(31))
    } else {
        Ok(num(0))
    }
}

// The high word of the dividend: the low one extended, or EDX.
fn high_dividend(alloc: Global, signed: bool, size: Size) -> Result<Expr, AllocError>
    ensures { IfOk result (λ e. e ≡ high_dividend_of signed size) }
{
    match size {
        Size::B => high_extension(alloc, signed, ax(alloc, signed)?),
        Size::H => high_extension(alloc, signed, dx_ax(alloc, signed)?),
        Size::W => Ok(reg(2)),
    }
}

// A function of the dividend and the divisor.
fn divided_word(
    alloc: Global,
    f: Fn3,
    signed: bool,
    size: Size,
    s: Operand,
) -> Result<Expr, AllocError>
    ensures { IfOk result (λ e. e ≡ divided_word_of f signed size s) }
{
    let high = high_dividend(alloc, signed, size)?;
    let low = low_dividend(alloc, signed, size)?;
    let divisor = factor(alloc, signed, size, s)?;
    fn3(alloc, f, high, low, divisor)
}

// Whether there is no quotient of 32 bits.
fn bad_function(signed: bool) -> Fn3
    ensures { result ≡ bad_function_of signed }
{
    if signed { Fn3::Divsbad } else { Fn3::Divubad }
}

// The quotient of 32 bits.
fn quotient_function(signed: bool) -> Fn3
    ensures { result ≡ quotient_function_of signed }
{
    if signed { Fn3::Divsq } else { Fn3::Divuq }
}

// The remainder of 32 bits.
fn remainder_function(signed: bool) -> Fn3
    ensures { result ≡ remainder_function_of signed }
{
    if signed { Fn3::Divsr } else { Fn3::Divur }
}

// 1 where t1 is above the greatest word of a size.
fn unfit_unsigned(alloc: Global, greatest: u32) -> Result<Expr, AllocError>
    ensures { IfOk result (λ e. e ≡ unfit_unsigned_of greatest) }
{
    word_if(alloc, cmp(Cmp::Lt, num(greatest), temp(1)))
}

// 1 where the quotient in t1 doesn't fit the size, whose greatest word is given.
fn unfit(alloc: Global, signed: bool, size: Size, greatest: u32) -> Result<Expr, AllocError>
    ensures { IfOk result (λ e. e ≡ unfit_of signed size greatest) }
{
    if signed {
        unfit_signed(alloc, size)
    } else {
        unfit_unsigned(alloc, greatest)
    }
}

// A word that isn't 0 exactly where there is no quotient.
fn bad_word(alloc: Global, signed: bool, size: Size, s: Operand) -> Result<Expr, AllocError>
    ensures { IfOk result (λ e. e ≡ bad_word_of signed size s) }
{
    let none = divided_word(alloc, bad_function(signed), signed, size, s)?;
    match size {
        Size::B => bin(alloc, Bin::Or, none, unfit(alloc, signed, Size::B, 0xff)?),
        Size::H => bin(alloc, Bin::Or, none, unfit(alloc, signed, Size::H, 0xffff)?),
        Size::W => Ok(none),
    }
}

// The block of DIV and of IDIV.
fn divide(alloc: Global, at: u32, signed: bool, size: Size, s: Operand) -> Result<Block, AllocError>
    ensures { IfOk result (λ b. b ≡ goes_on_of at (divide_stmts signed size s)) }
{
    let quotient = divided_word(alloc, quotient_function(signed), signed, size, s)?;
    let bad = bad_word(alloc, signed, size, s)?;
    let remainder = divided_word(alloc, remainder_function(signed), signed, size, s)?;
    let mut stmts = Vec::new(alloc);
    push_reads(alloc, &mut stmts, size, s)?;
    stmts.push(Stmt::Set(Name::T(1), quotient))?;
    stmts.push(Stmt::Trap(0, bad))?;
    stmts.push(Stmt::Set(Name::T(2), remainder))?;
    push_pair_writes(alloc, &mut stmts, size)?;
    Ok(goes_on(at, stmts))
}

/// DIV.
pub fn div(alloc: Global, at: u32, size: Size, s: Operand) -> Result<Block, AllocError>
    ensures { IfOk result (λ b. (next : ℕ) → next < 2 ^ 32 → HasSpelling (inst.Div size s) → AreBlocksOf (inst.Div size s) at next (b ∷ [])) }
{
    let b = divide(alloc, at, false, size, s)?;
    Ok(b)
}

/// IDIV.
pub fn idiv(alloc: Global, at: u32, size: Size, s: Operand) -> Result<Block, AllocError>
    ensures { IfOk result (λ b. (next : ℕ) → next < 2 ^ 32 → HasSpelling (inst.Idiv size s) → AreBlocksOf (inst.Idiv size s) at next (b ∷ [])) }
{
    let b = divide(alloc, at, true, size, s)?;
    Ok(b)
}
