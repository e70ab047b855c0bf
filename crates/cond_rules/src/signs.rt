//! Comparisons of signed numbers, in the place of the sign and the overflow of a difference.

ghost use Rattle.std.specs.Prelude.{IfOk, IfSome};
ghost use Rattle.c_words.specs.Built.{cmp as cmp_of};
ghost use Rattle.word_rules.specs.Standing.{ForCond};

use crate::shapes::as_bin;
use crate::widths::{
    as_low, as_top, extended, is_equality, is_number, is_within, overflow, signed,
};
use c_syntax::{CBin, CCmp, CCond, CExpr, CFn2};
use c_words::{cmp, copy_word, fn2, num, same_word};
use std::alloc::{AllocError, Global};

/// `sign != overflow` and `sign == overflow` of a difference of x and y: `lts(x, y) != 0` and `== 0`.
pub(crate) fn less(
    alloc: Global,
    op: CCmp,
    a: &CExpr,
    b: &CExpr,
) -> Result<Option<CCond>, AllocError>
    ensures { IfOk result (λ o. IfSome o (ForCond (cmp_of op a.now b.now))) }
{
    if !is_equality(op) {
        return Ok(None);
    }
    let Some((w, r)) = as_top(a) else {
        return Ok(None);
    };
    let Some(d) = as_low(w, r) else {
        return Ok(None);
    };
    let Some((x, y)) = as_bin(CBin::Sub, d) else {
        return Ok(None);
    };
    if !is_within(w, x) || !is_within(w, y) {
        return Ok(None);
    }
    let o = overflow(alloc, w, x, y, r)?;
    let is_overflow = same_word(b, &o);
    drop(o);
    if !is_overflow {
        return Ok(None);
    }
    let x = signed(alloc, w, x)?;
    let y = signed(alloc, w, y)?;
    let less = fn2(alloc, CFn2::Lts, x, y)?;
    Ok(Some(cmp(op, less, num(0))))
}

/// `sign != 0` and `sign == 0` of a low part x: `lts(x, 0) != 0` and `== 0`.
pub(crate) fn negative(
    alloc: Global,
    op: CCmp,
    a: &CExpr,
    b: &CExpr,
) -> Result<Option<CCond>, AllocError>
    ensures { IfOk result (λ o. IfSome o (ForCond (cmp_of op a.now b.now))) }
{
    if !is_equality(op) || !is_number(b, 0) {
        return Ok(None);
    }
    let Some((w, x)) = as_top(a) else {
        return Ok(None);
    };
    let Some(d) = as_low(w, x) else {
        return Ok(None);
    };
    let d = copy_word(alloc, d)?;
    let x = extended(alloc, w, d)?;
    let less = fn2(alloc, CFn2::Lts, x, num(0))?;
    Ok(Some(cmp(op, less, num(0))))
}
