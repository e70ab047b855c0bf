//! Comparisons of two words, in the place of ones of their difference or sum.

ghost use Rattle.std.specs.Prelude.{IfOk, IfSome};
ghost use Rattle.c_words.specs.Built.{cmp as cmp_of};
ghost use Rattle.word_rules.specs.Standing.{ForCond};

use crate::shapes::{as_bin, as_number};
use crate::widths::{as_low, greatest, is_equality, is_number, is_within};
use c_syntax::{CBin, CCmp, CCond, CExpr};
use c_words::{cmp, copy_word, num};
use dream_words::Width;
use std::alloc::{AllocError, Global};

/// `x - y == 0` and `x - y != 0`, of words of a width: `x == y` and `x != y`.
pub(crate) fn difference(
    alloc: Global,
    w: Width,
    op: CCmp,
    a: &CExpr,
    b: &CExpr,
) -> Result<Option<CCond>, AllocError>
    ensures { IfOk result (λ o. IfSome o (ForCond (cmp_of op a.now b.now))) }
{
    if !is_equality(op) || !is_number(b, 0) {
        return Ok(None);
    }
    let Some(d) = as_low(w, a) else {
        return Ok(None);
    };
    let Some((x, y)) = as_bin(CBin::Sub, d) else {
        return Ok(None);
    };
    if !is_within(w, x) || !is_within(w, y) {
        return Ok(None);
    }
    let x = copy_word(alloc, x)?;
    let y = copy_word(alloc, y)?;
    Ok(Some(cmp(op, x, y)))
}

/// `x + k == j` and `x + k != j`, of words of a width: x compared with a number.
pub(crate) fn sum(
    alloc: Global,
    w: Width,
    op: CCmp,
    a: &CExpr,
    b: &CExpr,
) -> Result<Option<CCond>, AllocError>
    ensures { IfOk result (λ o. IfSome o (ForCond (cmp_of op a.now b.now))) }
{
    if !is_equality(op) {
        return Ok(None);
    }
    let Some(s) = as_low(w, a) else {
        return Ok(None);
    };
    let Some((x, y)) = as_bin(CBin::Add, s) else {
        return Ok(None);
    };
    let (Some(k), Some(j)) = (as_number(y), as_number(b)) else {
        return Ok(None);
    };
    let most = greatest(w);
    if !is_within(w, x) || j > most || k > most {
        return Ok(None);
    }
    let x = copy_word(alloc, x)?;
    Ok(Some(cmp(op, x, num(j.wrapping_sub(k) & most))))
}

/// `x ^ y == 0` and `x ^ y != 0`: `x == y` and `x != y`.
pub(crate) fn exclusive(
    alloc: Global,
    op: CCmp,
    a: &CExpr,
    b: &CExpr,
) -> Result<Option<CCond>, AllocError>
    ensures { IfOk result (λ o. IfSome o (ForCond (cmp_of op a.now b.now))) }
{
    if !is_equality(op) || !is_number(b, 0) {
        return Ok(None);
    }
    let Some((x, y)) = as_bin(CBin::Xor, a) else {
        return Ok(None);
    };
    let x = copy_word(alloc, x)?;
    let y = copy_word(alloc, y)?;
    Ok(Some(cmp(op, x, y)))
}
