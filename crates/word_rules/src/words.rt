//! Words that are no operators of two words.

ghost use Rattle.std.specs.Prelude.{IfOk};
ghost use Rattle.c_words.specs.Built.{word_not as not_of, fn1 as fn1_of, fn2 as fn2_of, fn3 as fn3_of, pick as pick_of, cond_not as opposite_of};
ghost use Rattle.word_rules.specs.Settled.{Settles, SettlesCond};

use crate::numbers::number;
use c_syntax::{CCond, CExpr, CFn1, CFn2, CFn3};
use c_words::{num, same_word};
use std::alloc::{AllocError, Global};

/// The complement.
pub(crate) fn complement(alloc: Global, a: CExpr) -> Result<CExpr, AllocError>
    ensures { IfOk result (λ e. Settles (not_of a) e) }
{
    match a {
        CExpr::Num(n) => Ok(CExpr::Num(!n)),
        CExpr::Not(a) => Ok(a.into_inner()),
        a => c_words::word_not(alloc, a),
    }
}

/// A function of one word.
pub(crate) fn of_one(alloc: Global, f: CFn1, a: CExpr) -> Result<CExpr, AllocError>
    ensures { IfOk result (λ e. Settles (fn1_of f a) e) }
{
    if let Some(n) = number(&a) {
        drop(a);
        return Ok(num(f.apply(n)));
    }
    c_words::fn1(alloc, f, a)
}

/// A function of two words.
pub(crate) fn of_two(alloc: Global, f: CFn2, a: CExpr, b: CExpr) -> Result<CExpr, AllocError>
    ensures { IfOk result (λ e. Settles (fn2_of f a b) e) }
{
    if let Some(x) = number(&a) {
        if let Some(y) = number(&b) {
            drop(a);
            drop(b);
            return Ok(num(f.apply(x, y)));
        }
    }
    c_words::fn2(alloc, f, a, b)
}

/// A division.
pub(crate) fn of_three(
    alloc: Global,
    f: CFn3,
    a: CExpr,
    b: CExpr,
    c: CExpr,
) -> Result<CExpr, AllocError>
    ensures { IfOk result (λ e. Settles (fn3_of f a b c) e) }
{
    if let Some(x) = number(&a) {
        if let Some(y) = number(&b) {
            if let Some(z) = number(&c) {
                drop(a);
                drop(b);
                drop(c);
                return Ok(num(f.apply(x, y, z)));
            }
        }
    }
    c_words::fn3(alloc, f, a, b, c)
}

/// The conditional operator.
pub(crate) fn picked(alloc: Global, t: CCond, a: CExpr, b: CExpr) -> Result<CExpr, AllocError>
    ensures { IfOk result (λ e. Settles (pick_of t a b) e) }
{
    if same_word(&a, &b) {
        drop(t);
        drop(b);
        return Ok(a);
    }
    c_words::pick(alloc, t, a, b)
}

/// The negation of a Cond.
pub(crate) fn negated(alloc: Global, t: CCond) -> Result<CCond, AllocError>
    ensures { IfOk result (λ u. SettlesCond (opposite_of t) u) }
{
    match t {
        CCond::Not(t) => Ok(t.into_inner()),
        t => c_words::cond_not(alloc, t),
    }
}
