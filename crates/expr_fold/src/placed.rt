//! Words, Conds and statements in which delayed words stand in the place of their names.

ghost use Rattle.std.specs.Prelude.{◌≡◌, drop, IfOk};
ghost use Rattle.expr_fold.specs.Placed.{stands_for, placed_word, placed_cond};

use crate::delayed::Delayed;
use c_syntax::{CCond, CExpr};
use c_words::copy_word;
use dream_words::Name;
use flow_passes::same_name;
use sqlite_items::Boxed;
use std::alloc::{AllocError, Global};

/// The word that a name stands for.
fn stands_for(alloc: Global, delayed: &[Delayed], n: Name) -> Result<CExpr, AllocError>
    ensures { IfOk result (λ r. r ≡ stands_for delayed.now n) }
{
    for d in delayed {
        if same_name(d.name, n) {
            return copy_word(alloc, &d.word);
        }
    }
    Ok(CExpr::Name(n))
}

/// A Word with delayed words in place.
#[cycle(placed)]
pub(crate) fn word(alloc: Global, delayed: &[Delayed], e: &CExpr) -> Result<CExpr, AllocError>
    ensures { IfOk result (λ r. r ≡ placed_word delayed.now e.now) }
{
    match e {
        CExpr::Num(n) => Ok(CExpr::Num(*n)),
        CExpr::Name(n) => stands_for(alloc, delayed, *n),
        CExpr::Not(a) => Ok(CExpr::Not(boxed(alloc, delayed, a)?)),
        CExpr::Bin(op, a, b) => {
            let a = boxed(alloc, delayed, a)?;
            let b = boxed(alloc, delayed, b)?;
            Ok(CExpr::Bin(*op, a, b))
        }
        CExpr::Fn1(f, a) => Ok(CExpr::Fn1(*f, boxed(alloc, delayed, a)?)),
        CExpr::Fn2(f, a, b) => {
            let a = boxed(alloc, delayed, a)?;
            let b = boxed(alloc, delayed, b)?;
            Ok(CExpr::Fn2(*f, a, b))
        }
        CExpr::Fn3(f, a, b, c) => {
            let a = boxed(alloc, delayed, a)?;
            let b = boxed(alloc, delayed, b)?;
            let c = boxed(alloc, delayed, c)?;
            Ok(CExpr::Fn3(*f, a, b, c))
        }
        CExpr::Pick(t, a, b) => {
            let t = boxed_cond(alloc, delayed, t)?;
            let a = boxed(alloc, delayed, a)?;
            let b = boxed(alloc, delayed, b)?;
            Ok(CExpr::Pick(t, a, b))
        }
    }
}

#[cycle(placed)]
fn boxed(alloc: Global, delayed: &[Delayed], e: &Boxed<CExpr>) -> Result<Boxed<CExpr>, AllocError>
    ensures { IfOk result (λ r. r ≡ placed_word delayed.now e.now) }
{
    let e = word(alloc, delayed, e.get())?;
    Boxed::new(alloc, e)
}

/// A Cond with delayed words in place.
#[cycle(placed)]
pub(crate) fn cond(alloc: Global, delayed: &[Delayed], t: &CCond) -> Result<CCond, AllocError>
    ensures { IfOk result (λ r. r ≡ placed_cond delayed.now t.now) }
{
    match t {
        CCond::Cmp(op, a, b) => {
            let a = word(alloc, delayed, a)?;
            let b = word(alloc, delayed, b)?;
            Ok(CCond::Cmp(*op, a, b))
        }
        CCond::Not(t) => Ok(CCond::Not(boxed_cond(alloc, delayed, t)?)),
        CCond::And(t, u) => {
            let t = boxed_cond(alloc, delayed, t)?;
            let u = boxed_cond(alloc, delayed, u)?;
            Ok(CCond::And(t, u))
        }
        CCond::Or(t, u) => {
            let t = boxed_cond(alloc, delayed, t)?;
            let u = boxed_cond(alloc, delayed, u)?;
            Ok(CCond::Or(t, u))
        }
    }
}

#[cycle(placed)]
fn boxed_cond(
    alloc: Global,
    delayed: &[Delayed],
    t: &Boxed<CCond>,
) -> Result<Boxed<CCond>, AllocError>
    ensures { IfOk result (λ r. r ≡ placed_cond delayed.now t.now) }
{
    let t = cond(alloc, delayed, t.get())?;
    Boxed::new(alloc, t)
}
