//! The statements that set the flags of a shift.

ghost use Rattle.std.specs.Prelude.{◌≡◌, [], ◌∷◌, ◌++◌, if◌then◌else◌, IfOk, OnOk};
ghost use Rattle.lift_alu.specs.Words.{even_word as even_word_of, top_word as top_word_of, zero_word as zero_word_of};
ghost use Rattle.lift_shifts.specs.Shifts.{conditional as conditional_of, sets_flag, sets_overflow, sets_result, sets_shifted};
ghost use Rattle.x86_model.specs.Operands.{bits_of};

use crate::amounts::{count_word, may_be_one, top_place};
use c_words::{bin, cmp, fn1, num, pick, word_if};
use dream_words::Name;
use lift_parts::{flag, temp};
use micro_ir::{Bin, Cmp, Expr, Fn1, Stmt};
use std::alloc::{AllocError, Global};
use x86_inst::{Count, Size};

/// The top bit of a word of a size.
pub fn top_word(alloc: Global, size: Size, e: Expr) -> Result<Expr, AllocError>
    ensures { IfOk result (λ r. r ≡ top_word_of (bits_of size) e) }
{
    bin(alloc, Bin::Shr, e, num(top_place(size)))
}

// Whether a word is 0.
fn zero_word(alloc: Global, e: Expr) -> Result<Expr, AllocError>
    ensures { IfOk result (λ r. r ≡ zero_word_of e) }
{
    word_if(alloc, cmp(Cmp::Eq, e, num(0)))
}

// Whether the low byte of a word has an even number of ones.
fn even_word(alloc: Global, e: Expr) -> Result<Expr, AllocError>
    ensures { IfOk result (λ r. r ≡ even_word_of e) }
{
    fn1(alloc, Fn1::Par, e)
}

// A flag's word; by CL the flag stays where the count is 0.
fn conditional(alloc: Global, count: Count, k: u8, e: Expr) -> Result<Expr, AllocError>
    ensures { IfOk result (λ r. r ≡ conditional_of count k e) }
{
    match count {
        Count::One => Ok(e),
        Count::Imm(_) => Ok(e),
        Count::Cl => {
            let none = cmp(Cmp::Eq, count_word(alloc, Count::Cl)?, num(0));
            pick(alloc, none, flag(k), e)
        }
    }
}

// Sets a flag.
fn push_flag(
    alloc: Global,
    stmts: &mut Vec<Stmt>,
    count: Count,
    k: u8,
    e: Expr,
) -> Result<(), AllocError>
    ensures { OnOk result (stmts.new.items ≡ stmts.old.items ++ sets_flag count k e ∷ []) }
{
    stmts.push(Stmt::Set(Name::Flag(k), conditional(alloc, count, k, e)?))?;
    Ok(())
}

// Sets OF, where the count may be 1.
fn push_overflow(
    alloc: Global,
    stmts: &mut Vec<Stmt>,
    count: Count,
    over: Expr,
) -> Result<(), AllocError>
    ensures { OnOk result (stmts.new.items ≡ stmts.old.items ++ sets_overflow count over) }
{
    if may_be_one(count) {
        push_flag(alloc, stmts, count, 4, over)
    } else {
        Ok(())
    }
}

// Sets SF, ZF and PF by the result.
fn push_result(
    alloc: Global,
    stmts: &mut Vec<Stmt>,
    size: Size,
    count: Count,
) -> Result<(), AllocError>
    ensures { OnOk result (stmts.new.items ≡ stmts.old.items ++ sets_result size count) }
{
    push_flag(alloc, stmts, count, 3, top_word(alloc, size, temp(2))?)?;
    push_flag(alloc, stmts, count, 2, zero_word(alloc, temp(2))?)?;
    push_flag(alloc, stmts, count, 1, even_word(alloc, temp(2))?)?;
    Ok(())
}

// Sets SF, ZF and PF, unless they are kept.
fn push_unless_kept(
    alloc: Global,
    stmts: &mut Vec<Stmt>,
    rotates: bool,
    size: Size,
    count: Count,
) -> Result<(), AllocError>
    ensures { OnOk result (stmts.new.items ≡ stmts.old.items ++ (if rotates then [] else sets_result size count)) }
{
    if rotates {
        Ok(())
    } else {
        push_result(alloc, stmts, size, count)
    }
}

/// Sets the flags with a carry and an overflow; a rotation keeps SF, ZF and PF.
pub fn push_shifted(
    alloc: Global,
    stmts: &mut Vec<Stmt>,
    rotates: bool,
    size: Size,
    count: Count,
    carry: Expr,
    over: Expr,
) -> Result<(), AllocError>
    ensures { OnOk result (stmts.new.items ≡ stmts.old.items ++ sets_shifted rotates size count carry over) }
{
    push_overflow(alloc, stmts, count, over)?;
    push_unless_kept(alloc, stmts, rotates, size, count)?;
    push_flag(alloc, stmts, count, 0, carry)?;
    Ok(())
}
