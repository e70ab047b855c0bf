//! Words and statements that products and quotients share.

ghost use Rattle.std.specs.Prelude.{◌≡◌, ◌++◌, IfOk, OnOk};
ghost use Rattle.lift_products.specs.Parts.{factor as factor_of, high_register as high_register_of, pair_writes, unfit_signed as unfit_signed_of, sets_overflow};

use c_words::{cmp, copy_word, word_if};
use dream_words::Name;
use lift_blocks::extended;
use lift_parts::{raw_word, set_part, temp, value_word};
use micro_ir::{Cmp, Expr, Stmt};
use std::alloc::{AllocError, Global};
use x86_inst::{Operand, Size};

/// The value of an operand as a word of 32 bits: extended by its sign, or by zeros.
pub(crate) fn factor(
    alloc: Global,
    signed: bool,
    size: Size,
    s: Operand,
) -> Result<Expr, AllocError>
    ensures { IfOk result (λ e. e ≡ factor_of signed size s) }
{
    if signed {
        extended(alloc, size, raw_word(alloc, size, s)?)
    } else {
        value_word(alloc, size, s)
    }
}

// AH, DX or EDX.
fn high_register(size: Size) -> u8
    ensures { result ≡ high_register_of size }
{
    match size {
        Size::B => 4,
        Size::H => 2,
        Size::W => 2,
    }
}

/// Puts the writes of a pair at the end: t1 goes to AL, AX or EAX, and t2 to AH, DX or EDX.
pub(crate) fn push_pair_writes(
    alloc: Global,
    stmts: &mut Vec<Stmt>,
    size: Size,
) -> Result<(), AllocError>
    ensures { OnOk result (stmts.new.items ≡ stmts.old.items ++ pair_writes size) }
{
    stmts.push(set_part(alloc, size, 0, temp(1))?)?;
    stmts.push(set_part(alloc, size, high_register(size), temp(2))?)?;
    Ok(())
}

/// 1 where t1, as a signed number, doesn't fit the size.
pub(crate) fn unfit_signed(alloc: Global, size: Size) -> Result<Expr, AllocError>
    ensures { IfOk result (λ e. e ≡ unfit_signed_of size) }
{
    let own = extended(alloc, size, temp(1))?;
    word_if(alloc, cmp(Cmp::Ne, own, temp(1)))
}

/// Sets OF and CF to a word, and CF last.
pub(crate) fn push_overflow(alloc: Global, stmts: &mut Vec<Stmt>, e: Expr) -> Result<(), AllocError>
    ensures { OnOk result (stmts.new.items ≡ stmts.old.items ++ sets_overflow e) }
{
    let overflow = copy_word(alloc, &e)?;
    stmts.push(Stmt::Set(Name::Flag(4), overflow))?;
    stmts.push(Stmt::Set(Name::Flag(0), e))?;
    Ok(())
}
