//! Plain Words and Conds.

ghost use Rattle.std.specs.Prelude.{IfOk, IsTrue};
ghost use Rattle.word_rules.specs.Plain.{is_plain, is_plain_cond};
ghost use Rattle.word_rules.specs.Settled.{IsPlainFor, IsPlainForCond};
ghost use Rattle.word_rules.specs.Standing.{ForWord, ForCond};

use crate::bins::settled;
use crate::words::{complement, negated, of_one, of_three, of_two, picked};
use c_syntax::{CCond, CExpr};
use c_words::{and, cmp, name, num, or};
use std::alloc::{AllocError, Global};

/// A plain Word in the place of another.
pub fn plain_word(alloc: Global, e: &CExpr) -> Result<CExpr, AllocError>
    ensures stands { IfOk result (λ r. ForWord e.now r) }
    ensures plain { IfOk result (λ r. IsTrue (is_plain r)) }
{
    word(alloc, e)
}

/// A plain Cond in the place of another.
pub fn plain_cond(alloc: Global, t: &CCond) -> Result<CCond, AllocError>
    ensures stands { IfOk result (λ r. ForCond t.now r) }
    ensures plain { IfOk result (λ r. IsTrue (is_plain_cond r)) }
{
    cond(alloc, t)
}

#[cycle(plain)]
fn word(alloc: Global, e: &CExpr) -> Result<CExpr, AllocError>
    ensures { IfOk result (λ r. IsPlainFor e.now r) }
{
    match e {
        CExpr::Num(n) => Ok(num(*n)),
        CExpr::Name(n) => Ok(name(*n)),
        CExpr::Not(a) => {
            let a = word(alloc, a.get())?;
            complement(alloc, a)
        }
        CExpr::Bin(op, a, b) => {
            let a = word(alloc, a.get())?;
            let b = word(alloc, b.get())?;
            settled(alloc, *op, a, b)
        }
        CExpr::Fn1(f, a) => {
            let a = word(alloc, a.get())?;
            of_one(alloc, *f, a)
        }
        CExpr::Fn2(f, a, b) => {
            let a = word(alloc, a.get())?;
            let b = word(alloc, b.get())?;
            of_two(alloc, *f, a, b)
        }
        CExpr::Fn3(f, a, b, c) => {
            let a = word(alloc, a.get())?;
            let b = word(alloc, b.get())?;
            let c = word(alloc, c.get())?;
            of_three(alloc, *f, a, b, c)
        }
        CExpr::Pick(t, a, b) => {
            let t = cond(alloc, t.get())?;
            let a = word(alloc, a.get())?;
            let b = word(alloc, b.get())?;
            picked(alloc, t, a, b)
        }
    }
}

#[cycle(plain)]
fn cond(alloc: Global, t: &CCond) -> Result<CCond, AllocError>
    ensures { IfOk result (λ r. IsPlainForCond t.now r) }
{
    match t {
        CCond::Cmp(op, a, b) => {
            let a = word(alloc, a)?;
            let b = word(alloc, b)?;
            Ok(cmp(*op, a, b))
        }
        CCond::Not(t) => {
            let t = cond(alloc, t.get())?;
            negated(alloc, t)
        }
        CCond::And(t, u) => {
            let t = cond(alloc, t.get())?;
            let u = cond(alloc, u.get())?;
            and(alloc, t, u)
        }
        CCond::Or(t, u) => {
            let t = cond(alloc, t.get())?;
            let u = cond(alloc, u.get())?;
            or(alloc, t, u)
        }
    }
}
