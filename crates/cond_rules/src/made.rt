//! Conds by their parts, made of comparisons where a rule allows.

ghost use Rattle.std.specs.Prelude.{IfOk, IfSome};
ghost use Rattle.c_words.specs.Built.{cmp as cmp_of, cond_not as not_of, and as and_of, or as or_of};
ghost use Rattle.word_rules.specs.Standing.{ForCond};

use crate::chosen::chosen;
use crate::negated::negated;
use crate::{equal, joined, signs};
use c_syntax::{CCmp, CCond, CExpr};
use dream_words::Width;
use std::alloc::{AllocError, Global};

/// A comparison.
pub(crate) fn cmp(alloc: Global, op: CCmp, a: CExpr, b: CExpr) -> Result<CCond, AllocError>
    ensures { IfOk result (ForCond (cmp_of op a b)) }
{
    match ruled(alloc, op, &a, &b)? {
        Some(t) => {
            drop(a);
            drop(b);
            Ok(t)
        }
        None => Ok(CCond::Cmp(op, a, b)),
    }
}

/// What the rules put in the place of a comparison.
fn ruled(alloc: Global, op: CCmp, a: &CExpr, b: &CExpr) -> Result<Option<CCond>, AllocError>
    ensures { IfOk result (λ o. IfSome o (ForCond (cmp_of op a.now b.now))) }
{
    if let Some(t) = chosen(alloc, op, a, b)? {
        return Ok(Some(t));
    }
    if let Some(t) = signs::less(alloc, op, a, b)? {
        return Ok(Some(t));
    }
    if let Some(t) = signs::negative(alloc, op, a, b)? {
        return Ok(Some(t));
    }
    if let Some(t) = equal::exclusive(alloc, op, a, b)? {
        return Ok(Some(t));
    }
    if let Some(t) = of_width(alloc, Width::B, op, a, b)? {
        return Ok(Some(t));
    }
    if let Some(t) = of_width(alloc, Width::H, op, a, b)? {
        return Ok(Some(t));
    }
    of_width(alloc, Width::W, op, a, b)
}

/// What the rules on differences and sums of a width put in its place.
fn of_width(
    alloc: Global,
    w: Width,
    op: CCmp,
    a: &CExpr,
    b: &CExpr,
) -> Result<Option<CCond>, AllocError>
    ensures { IfOk result (λ o. IfSome o (ForCond (cmp_of op a.now b.now))) }
{
    if let Some(t) = equal::difference(alloc, w, op, a, b)? {
        return Ok(Some(t));
    }
    equal::sum(alloc, w, op, a, b)
}

/// A negation.
pub(crate) fn not(alloc: Global, t: CCond) -> Result<CCond, AllocError>
    ensures { IfOk result (ForCond (not_of t)) }
{
    let made = negated(alloc, &t)?;
    drop(t);
    Ok(made)
}

/// A conjunction.
pub(crate) fn and(alloc: Global, t: CCond, u: CCond) -> Result<CCond, AllocError>
    ensures { IfOk result (ForCond (and_of t u)) }
{
    match ruled_and(alloc, &t, &u)? {
        Some(r) => {
            drop(t);
            drop(u);
            Ok(r)
        }
        None => c_words::and(alloc, t, u),
    }
}

/// What the rules put in the place of a conjunction.
fn ruled_and(alloc: Global, t: &CCond, u: &CCond) -> Result<Option<CCond>, AllocError>
    ensures { IfOk result (λ o. IfSome o (ForCond (and_of t.now u.now))) }
{
    if let Some(r) = joined::common(alloc, CCmp::Le, CCmp::Ne, CCmp::Lt, t, u)? {
        return Ok(Some(r));
    }
    if let Some(r) = joined::signed_common(alloc, Width::B, t, u)? {
        return Ok(Some(r));
    }
    if let Some(r) = joined::signed_common(alloc, Width::H, t, u)? {
        return Ok(Some(r));
    }
    joined::signed_common(alloc, Width::W, t, u)
}

/// A disjunction.
pub(crate) fn or(alloc: Global, t: CCond, u: CCond) -> Result<CCond, AllocError>
    ensures { IfOk result (ForCond (or_of t u)) }
{
    match ruled_or(alloc, &t, &u)? {
        Some(r) => {
            drop(t);
            drop(u);
            Ok(r)
        }
        None => c_words::or(alloc, t, u),
    }
}

/// What the rules put in the place of a disjunction.
fn ruled_or(alloc: Global, t: &CCond, u: &CCond) -> Result<Option<CCond>, AllocError>
    ensures { IfOk result (λ o. IfSome o (ForCond (or_of t.now u.now))) }
{
    if let Some(r) = joined::union(alloc, CCmp::Lt, CCmp::Eq, CCmp::Le, t, u)? {
        return Ok(Some(r));
    }
    if let Some(r) = joined::union(alloc, CCmp::Eq, CCmp::Lt, CCmp::Le, t, u)? {
        return Ok(Some(r));
    }
    if let Some(r) = joined::signed_union(alloc, Width::B, t, u)? {
        return Ok(Some(r));
    }
    if let Some(r) = joined::signed_union(alloc, Width::H, t, u)? {
        return Ok(Some(r));
    }
    joined::signed_union(alloc, Width::W, t, u)
}
