//! Two comparisons of the same words that are joined: one comparison.

ghost use Rattle.std.specs.Prelude.{◌≡◌, IsTrue, IfOk, IfSome};
ghost use Rattle.c_syntax.specs.declared.syntax.CCmp.TheVariants.{Eq, Ne};
ghost use Rattle.c_words.specs.Built.{cmp as cmp_of, num as num_of, and as and_of, or as or_of};
ghost use Rattle.word_rules.specs.Standing.{ForCond};
ghost use Rattle.cond_rules.specs.Widths.{less_of};
ghost use Rattle.cond_rules.specs.Forms.{IsSignedForm, IsUnion, IsCommon};

use crate::shapes::{as_cmp, as_less};
use crate::widths::{is_number, is_within, signed};
use c_syntax::{CCmp, CCond, CExpr, CFn2};
use c_words::{cmp, copy_word, fn2, num, same_word};
use dream_words::Width;
use std::alloc::{AllocError, Global};

/// A disjunction of two comparisons of the same words, that one comparison says.
pub(crate) fn union(
    alloc: Global,
    p: CCmp,
    q: CCmp,
    r: CCmp,
    t: &CCond,
    u: &CCond,
) -> Result<Option<CCond>, AllocError>
    requires { IsUnion p q r }
    ensures { IfOk result (λ o. IfSome o (ForCond (or_of t.now u.now))) }
{
    let Some((x, y)) = as_cmp(p, t) else {
        return Ok(None);
    };
    let Some((m, n)) = as_cmp(q, u) else {
        return Ok(None);
    };
    if !same_word(x, m) || !same_word(y, n) {
        return Ok(None);
    }
    let a = copy_word(alloc, x)?;
    let b = copy_word(alloc, y)?;
    Ok(Some(cmp(r, a, b)))
}

/// A conjunction of two comparisons of the same words, the second with its sides changed, that one comparison says.
pub(crate) fn common(
    alloc: Global,
    p: CCmp,
    q: CCmp,
    r: CCmp,
    t: &CCond,
    u: &CCond,
) -> Result<Option<CCond>, AllocError>
    requires { IsCommon p q r }
    ensures { IfOk result (λ o. IfSome o (ForCond (and_of t.now u.now))) }
{
    let Some((x, y)) = as_cmp(p, t) else {
        return Ok(None);
    };
    let Some((m, n)) = as_cmp(q, u) else {
        return Ok(None);
    };
    if !same_word(x, n) || !same_word(y, m) {
        return Ok(None);
    }
    let a = copy_word(alloc, x)?;
    let b = copy_word(alloc, y)?;
    Ok(Some(cmp(r, a, b)))
}

/// Whether the second Word is seen to be the first, extended by its sign.
fn is_signed_form(alloc: Global, w: Width, e: &CExpr, m: &CExpr) -> Result<bool, AllocError>
    ensures { IfOk result (λ b. IsTrue b → IsSignedForm w e.now m.now) }
{
    if !is_within(w, e) {
        return Ok(false);
    }
    if is_number(e, 0) && is_number(m, 0) {
        return Ok(true);
    }
    let s = signed(alloc, w, e)?;
    let same = same_word(&s, m);
    drop(s);
    Ok(same)
}

/// `x == y || lts(x, y) != 0`, of signed words of a width: `lts(y, x) == 0`.
pub(crate) fn signed_union(
    alloc: Global,
    w: Width,
    t: &CCond,
    u: &CCond,
) -> Result<Option<CCond>, AllocError>
    ensures { IfOk result (λ o. IfSome o (ForCond (or_of t.now u.now))) }
{
    let Some((x, y)) = as_cmp(CCmp::Eq, t) else {
        return Ok(None);
    };
    let Some((z, i)) = as_cmp(CCmp::Ne, u) else {
        return Ok(None);
    };
    let Some((m, n)) = as_less(z) else {
        return Ok(None);
    };
    let first = is_signed_form(alloc, w, x, m)?;
    let second = is_signed_form(alloc, w, y, n)?;
    if !is_number(i, 0) || !first || !second {
        return Ok(None);
    }
    let a = copy_word(alloc, n)?;
    let b = copy_word(alloc, m)?;
    let less = fn2(alloc, CFn2::Lts, a, b)?;
    Ok(Some(cmp(CCmp::Eq, less, num(0))))
}

/// `x != y && lts(x, y) == 0`, of signed words of a width: `lts(y, x) != 0`.
pub(crate) fn signed_common(
    alloc: Global,
    w: Width,
    t: &CCond,
    u: &CCond,
) -> Result<Option<CCond>, AllocError>
    ensures { IfOk result (λ o. IfSome o (ForCond (and_of t.now u.now))) }
{
    let Some((x, y)) = as_cmp(CCmp::Ne, t) else {
        return Ok(None);
    };
    let Some((z, i)) = as_cmp(CCmp::Eq, u) else {
        return Ok(None);
    };
    let Some((m, n)) = as_less(z) else {
        return Ok(None);
    };
    let first = is_signed_form(alloc, w, x, m)?;
    let second = is_signed_form(alloc, w, y, n)?;
    if !is_number(i, 0) || !first || !second {
        return Ok(None);
    }
    let a = copy_word(alloc, n)?;
    let b = copy_word(alloc, m)?;
    let less = fn2(alloc, CFn2::Lts, a, b)?;
    Ok(Some(cmp(CCmp::Ne, less, num(0))))
}
