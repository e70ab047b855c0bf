//! Words that say by a name, once it is set, what they said by the word that it is set to.

ghost use Rattle.std.specs.Prelude.{IfOk, IfSome};
ghost use Rattle.expr_fold.specs.Said.{IsSaid, AreSaid};

use crate::delayed::Delayed;
use crate::folding::DEPTH;
use crate::{fits, placed, uses};
use c_syntax::{CCond, CExpr};
use c_words::{copy_word, same_word};
use sqlite_items::Boxed;
use std::alloc::{AllocError, Global};
use std::slice;

/// A Word in which a name stands for each part that is the word to which it is set.
#[cycle(shorter)]
fn shorter(alloc: Global, d: &Delayed, e: &CExpr) -> Result<CExpr, AllocError> {
    if same_word(e, &d.word) {
        return Ok(CExpr::Name(d.name));
    }
    match e {
        CExpr::Num(n) => Ok(CExpr::Num(*n)),
        CExpr::Name(n) => Ok(CExpr::Name(*n)),
        CExpr::Not(a) => Ok(CExpr::Not(boxed(alloc, d, a)?)),
        CExpr::Bin(op, a, b) => {
            let a = boxed(alloc, d, a)?;
            let b = boxed(alloc, d, b)?;
            Ok(CExpr::Bin(*op, a, b))
        }
        CExpr::Fn1(f, a) => Ok(CExpr::Fn1(*f, boxed(alloc, d, a)?)),
        CExpr::Fn2(f, a, b) => {
            let a = boxed(alloc, d, a)?;
            let b = boxed(alloc, d, b)?;
            Ok(CExpr::Fn2(*f, a, b))
        }
        CExpr::Fn3(f, a, b, c) => {
            let a = boxed(alloc, d, a)?;
            let b = boxed(alloc, d, b)?;
            let c = boxed(alloc, d, c)?;
            Ok(CExpr::Fn3(*f, a, b, c))
        }
        CExpr::Pick(t, a, b) => {
            let t = boxed_cond(alloc, d, t)?;
            let a = boxed(alloc, d, a)?;
            let b = boxed(alloc, d, b)?;
            Ok(CExpr::Pick(t, a, b))
        }
    }
}

#[cycle(shorter)]
fn boxed(alloc: Global, d: &Delayed, e: &Boxed<CExpr>) -> Result<Boxed<CExpr>, AllocError> {
    let e = shorter(alloc, d, e.get())?;
    Boxed::new(alloc, e)
}

/// A Cond in which a name stands for each part that is the word to which it is set.
#[cycle(shorter)]
fn shorter_cond(alloc: Global, d: &Delayed, t: &CCond) -> Result<CCond, AllocError> {
    match t {
        CCond::Cmp(op, a, b) => {
            let a = shorter(alloc, d, a)?;
            let b = shorter(alloc, d, b)?;
            Ok(CCond::Cmp(*op, a, b))
        }
        CCond::Not(t) => Ok(CCond::Not(boxed_cond(alloc, d, t)?)),
        CCond::And(t, u) => {
            let t = boxed_cond(alloc, d, t)?;
            let u = boxed_cond(alloc, d, u)?;
            Ok(CCond::And(t, u))
        }
        CCond::Or(t, u) => {
            let t = boxed_cond(alloc, d, t)?;
            let u = boxed_cond(alloc, d, u)?;
            Ok(CCond::Or(t, u))
        }
    }
}

#[cycle(shorter)]
fn boxed_cond(alloc: Global, d: &Delayed, t: &Boxed<CCond>) -> Result<Boxed<CCond>, AllocError> {
    let t = shorter_cond(alloc, d, t.get())?;
    Boxed::new(alloc, t)
}

/// What says after a set what a Word said before it. None where the Word reads the name's old word elsewhere than in the word
/// to which it is set. No name stands for a number, nor for another name.
pub(crate) fn said(alloc: Global, d: &Delayed, e: &CExpr) -> Result<Option<CExpr>, AllocError>
    ensures { IfOk result (λ o. IfSome o (λ r. IsSaid d.now e.now r)) }
{
    let short = if uses::word_size(&d.word) > 1 {
        shorter(alloc, d, e)?
    } else {
        copy_word(alloc, e)?
    };
    let long = placed::word(alloc, slice::from_ref(d), &short)?;
    if !same_word(&long, e) {
        return Ok(None);
    }
    if !fits::word_fits(&short, DEPTH) {
        return Ok(None);
    }
    Ok(Some(short))
}

/// Delayed sets that say after a set what they said before it. None where one can't.
pub(crate) fn all_said(
    alloc: Global,
    d: &Delayed,
    delayed: &[Delayed],
) -> Result<Option<Vec<Delayed>>, AllocError>
    ensures { IfOk result (λ o. IfSome o (λ q. AreSaid d.now delayed.now q.items)) }
{
    let mut made = Vec::new(alloc);
    for x in delayed {
        let Some(word) = said(alloc, d, &x.word)? else {
            return Ok(None);
        };
        made.push(Delayed { name: x.name, word })?;
    }
    Ok(Some(made))
}
