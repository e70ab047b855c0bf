//! How far a shift goes, as words.

ghost use Rattle.std.specs.Prelude.{◌≡◌, ◌-◌, IfOk};
ghost use Rattle.lift_shifts.specs.Counts.{count_word as count_word_of, before_word as before_word_of, rest_word as rest_word_of, turns_word as turns_word_of, back_word as back_word_of, may_be_one as may_be_one_of};
ghost use Rattle.x86_model.specs.Operands.{bits_of};
ghost use Rattle.x86_model.specs.Successors.{is_none as is_none_of};

use c_words::{bin, num, word_not};
use lift_parts::reg;
use micro_ir::{Bin, Expr};
use std::alloc::{AllocError, Global};
use x86_inst::{Count, Size};

// The size in bits.
fn bits(size: Size) -> u32
    ensures { result ≡ bits_of size }
{
    match size {
        Size::B => 8,
        Size::H => 16,
        Size::W => 32,
    }
}

/// The place of the top bit of a size.
pub fn top_place(size: Size) -> u32
    ensures { result ≡ bits_of size - 1 }
{
    match size {
        Size::B => 7,
        Size::H => 15,
        Size::W => 31,
    }
}

/// The place of the bit below the top one.
pub fn second_place(size: Size) -> u32
    ensures { result ≡ bits_of size - 2 }
{
    match size {
        Size::B => 6,
        Size::H => 14,
        Size::W => 30,
    }
}

/// A number that is 0 modulo 32.
pub fn is_none(count: Count) -> bool
    ensures { result ≡ is_none_of count }
{
    match count {
        Count::One => false,
        Count::Imm(k) => k % 32 == 0,
        Count::Cl => false,
    }
}

/// A count that may be 1.
pub fn may_be_one(count: Count) -> bool
    ensures { result ≡ may_be_one_of count }
{
    match count {
        Count::One => true,
        Count::Imm(k) => k % 32 == 1,
        Count::Cl => true,
    }
}

/// The count.
pub fn count_word(alloc: Global, count: Count) -> Result<Expr, AllocError>
    ensures { IfOk result (λ e. e ≡ count_word_of count) }
{
    match count {
        Count::One => Ok(num(1)),
        Count::Imm(k) => Ok(num(k as u32 % 32)),
        Count::Cl => bin(alloc, Bin::And, reg(1), num(31)),
    }
}

/// One less than the count.
pub fn before_word(alloc: Global, count: Count) -> Result<Expr, AllocError>
    ensures { IfOk result (λ e. e ≡ before_word_of count) }
{
    match count {
        Count::One => Ok(num(0)),
        Count::Imm(k) => Ok(num((k as u32 % 32).saturating_sub(1))),
        Count::Cl => {
            let less = bin(alloc, Bin::Sub, reg(1), num(1))?;
            bin(alloc, Bin::And, less, num(31))
        }
    }
}

/// The size less the count.
pub fn rest_word(alloc: Global, size: Size, count: Count) -> Result<Expr, AllocError>
    ensures { IfOk result (λ e. e ≡ rest_word_of size count) }
{
    match count {
        Count::One => Ok(num(top_place(size))),
        Count::Imm(k) => Ok(num(bits(size).saturating_sub(k as u32 % 32) % 32)),
        Count::Cl => {
            let rest = bin(alloc, Bin::Sub, num(bits(size)), reg(1))?;
            bin(alloc, Bin::And, rest, num(31))
        }
    }
}

/// The count modulo the size.
pub fn turns_word(alloc: Global, size: Size, count: Count) -> Result<Expr, AllocError>
    ensures { IfOk result (λ e. e ≡ turns_word_of size count) }
{
    match count {
        Count::One => Ok(num(1)),
        Count::Imm(k) => Ok(num(k as u32 % 32 % bits(size))),
        Count::Cl => bin(alloc, Bin::And, reg(1), num(top_place(size))),
    }
}

/// The size less 1 and less the count modulo the size.
pub fn back_word(alloc: Global, size: Size, count: Count) -> Result<Expr, AllocError>
    ensures { IfOk result (λ e. e ≡ back_word_of size count) }
{
    match count {
        Count::One => Ok(num(second_place(size))),
        Count::Imm(k) => Ok(num(top_place(size).saturating_sub(k as u32 % 32 % bits(size)))),
        Count::Cl => {
            let complement = word_not(alloc, reg(1))?;
            bin(alloc, Bin::And, complement, num(top_place(size)))
        }
    }
}
