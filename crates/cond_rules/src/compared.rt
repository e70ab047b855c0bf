//! Words and Conds in which the rules have been applied to each Cond.

ghost use Rattle.std.specs.Prelude.{IfOk};
ghost use Rattle.word_rules.specs.Standing.{ForWord, ForCond};

use crate::made;
use c_syntax::{CCond, CExpr};
use sqlite_items::Boxed;
use std::alloc::{AllocError, Global};

/// A Word that may stand for another, with comparisons in the place of conditions by flags.
#[cycle(compared)]
pub fn compared_word(alloc: Global, e: &CExpr) -> Result<CExpr, AllocError>
    ensures { IfOk result (ForWord e.now) }
{
    match e {
        CExpr::Num(n) => Ok(CExpr::Num(*n)),
        CExpr::Name(n) => Ok(CExpr::Name(*n)),
        CExpr::Not(a) => Ok(CExpr::Not(boxed(alloc, a)?)),
        CExpr::Bin(op, a, b) => {
            let a = boxed(alloc, a)?;
            let b = boxed(alloc, b)?;
            Ok(CExpr::Bin(*op, a, b))
        }
        CExpr::Fn1(f, a) => Ok(CExpr::Fn1(*f, boxed(alloc, a)?)),
        CExpr::Fn2(f, a, b) => {
            let a = boxed(alloc, a)?;
            let b = boxed(alloc, b)?;
            Ok(CExpr::Fn2(*f, a, b))
        }
        CExpr::Fn3(f, a, b, c) => {
            let a = boxed(alloc, a)?;
            let b = boxed(alloc, b)?;
            let c = boxed(alloc, c)?;
            Ok(CExpr::Fn3(*f, a, b, c))
        }
        CExpr::Pick(t, a, b) => {
            let t = Boxed::new(alloc, compared_cond(alloc, t.get())?)?;
            let a = boxed(alloc, a)?;
            let b = boxed(alloc, b)?;
            Ok(CExpr::Pick(t, a, b))
        }
    }
}

#[cycle(compared)]
fn boxed(alloc: Global, e: &Boxed<CExpr>) -> Result<Boxed<CExpr>, AllocError>
    ensures { IfOk result (ForWord e.now) }
{
    let e = compared_word(alloc, e.get())?;
    Boxed::new(alloc, e)
}

/// A Cond that may stand for another, with comparisons in the place of conditions by flags.
#[cycle(compared)]
pub fn compared_cond(alloc: Global, t: &CCond) -> Result<CCond, AllocError>
    ensures { IfOk result (ForCond t.now) }
{
    match t {
        CCond::Cmp(op, a, b) => {
            let a = compared_word(alloc, a)?;
            let b = compared_word(alloc, b)?;
            made::cmp(alloc, *op, a, b)
        }
        CCond::Not(t) => {
            let t = compared_cond(alloc, t.get())?;
            made::not(alloc, t)
        }
        CCond::And(t, u) => {
            let t = compared_cond(alloc, t.get())?;
            let u = compared_cond(alloc, u.get())?;
            made::and(alloc, t, u)
        }
        CCond::Or(t, u) => {
            let t = compared_cond(alloc, t.get())?;
            let u = compared_cond(alloc, u.get())?;
            made::or(alloc, t, u)
        }
    }
}
