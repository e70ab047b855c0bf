//! Words and Conds with the new numbers of locals.

ghost use Rattle.std.specs.Prelude.{◌≡◌, IfOk};
ghost use Rattle.c_locals.specs.Settled.{new_name, renamed_word, renamed_cond};

use crate::locals::Locals;
use c_syntax::{CCond, CExpr};
use sqlite_items::Boxed;
use std::alloc::{AllocError, Global};

/// A Word with new names.
#[cycle(renamed)]
pub(crate) fn word(alloc: Global, l: &Locals, e: &CExpr) -> Result<CExpr, AllocError>
    ensures { IfOk result (λ r. r ≡ renamed_word (new_name l.now) e.now) }
{
    match e {
        CExpr::Num(n) => Ok(CExpr::Num(*n)),
        CExpr::Name(n) => Ok(CExpr::Name(l.name(*n))),
        CExpr::Not(a) => Ok(CExpr::Not(boxed(alloc, l, a)?)),
        CExpr::Bin(op, a, b) => Ok(CExpr::Bin(*op, boxed(alloc, l, a)?, boxed(alloc, l, b)?)),
        CExpr::Fn1(f, a) => Ok(CExpr::Fn1(*f, boxed(alloc, l, a)?)),
        CExpr::Fn2(f, a, b) => Ok(CExpr::Fn2(*f, boxed(alloc, l, a)?, boxed(alloc, l, b)?)),
        CExpr::Fn3(f, a, b, c) => {
            let a = boxed(alloc, l, a)?;
            let b = boxed(alloc, l, b)?;
            let c = boxed(alloc, l, c)?;
            Ok(CExpr::Fn3(*f, a, b, c))
        }
        CExpr::Pick(t, a, b) => {
            let t = boxed_cond(alloc, l, t)?;
            let a = boxed(alloc, l, a)?;
            let b = boxed(alloc, l, b)?;
            Ok(CExpr::Pick(t, a, b))
        }
    }
}

#[cycle(renamed)]
fn boxed(alloc: Global, l: &Locals, e: &Boxed<CExpr>) -> Result<Boxed<CExpr>, AllocError>
    ensures { IfOk result (λ r. r ≡ renamed_word (new_name l.now) e.now) }
{
    let e = word(alloc, l, e.get())?;
    Boxed::new(alloc, e)
}

/// A Cond with new names.
#[cycle(renamed)]
pub(crate) fn cond(alloc: Global, l: &Locals, t: &CCond) -> Result<CCond, AllocError>
    ensures { IfOk result (λ r. r ≡ renamed_cond (new_name l.now) t.now) }
{
    match t {
        CCond::Cmp(op, a, b) => Ok(CCond::Cmp(*op, word(alloc, l, a)?, word(alloc, l, b)?)),
        CCond::Not(t) => Ok(CCond::Not(boxed_cond(alloc, l, t)?)),
        CCond::And(t, u) => Ok(CCond::And(boxed_cond(alloc, l, t)?, boxed_cond(alloc, l, u)?)),
        CCond::Or(t, u) => Ok(CCond::Or(boxed_cond(alloc, l, t)?, boxed_cond(alloc, l, u)?)),
    }
}

#[cycle(renamed)]
fn boxed_cond(alloc: Global, l: &Locals, t: &Boxed<CCond>) -> Result<Boxed<CCond>, AllocError>
    ensures { IfOk result (λ r. r ≡ renamed_cond (new_name l.now) t.now) }
{
    let t = cond(alloc, l, t.get())?;
    Boxed::new(alloc, t)
}
