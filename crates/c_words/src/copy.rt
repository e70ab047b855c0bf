//! Copies of Words and Conds.

ghost use Rattle.std.specs.Prelude.{◌≡◌, IfOk};

use c_syntax::{CCond, CExpr};
use sqlite_items::Boxed;
use std::alloc::{AllocError, Global};

/// An equal Word.
#[cycle(copy_word)]
pub fn copy_word(alloc: Global, e: &CExpr) -> Result<CExpr, AllocError>
    ensures { IfOk result (λ r. r ≡ e.now) }
{
    match e {
        CExpr::Num(n) => Ok(CExpr::Num(*n)),
        CExpr::Name(n) => Ok(CExpr::Name(*n)),
        CExpr::Not(a) => Ok(CExpr::Not(boxed(alloc, a)?)),
        CExpr::Bin(op, a, b) => Ok(CExpr::Bin(*op, boxed(alloc, a)?, boxed(alloc, b)?)),
        CExpr::Fn1(f, a) => Ok(CExpr::Fn1(*f, boxed(alloc, a)?)),
        CExpr::Fn2(f, a, b) => Ok(CExpr::Fn2(*f, boxed(alloc, a)?, boxed(alloc, b)?)),
        CExpr::Fn3(f, a, b, c) => {
            let a = boxed(alloc, a)?;
            let b = boxed(alloc, b)?;
            let c = boxed(alloc, c)?;
            Ok(CExpr::Fn3(*f, a, b, c))
        }
        CExpr::Pick(t, a, b) => {
            let t = Boxed::new(alloc, copy_cond(alloc, t.get())?)?;
            let a = boxed(alloc, a)?;
            let b = boxed(alloc, b)?;
            Ok(CExpr::Pick(t, a, b))
        }
    }
}

#[cycle(copy_word)]
fn boxed(alloc: Global, e: &Boxed<CExpr>) -> Result<Boxed<CExpr>, AllocError>
    ensures { IfOk result (λ r. r ≡ e.now) }
{
    let e = copy_word(alloc, e.get())?;
    Boxed::new(alloc, e)
}

/// An equal Cond.
#[cycle(copy_word)]
pub fn copy_cond(alloc: Global, t: &CCond) -> Result<CCond, AllocError>
    ensures { IfOk result (λ r. r ≡ t.now) }
{
    match t {
        CCond::Cmp(op, a, b) => Ok(CCond::Cmp(*op, copy_word(alloc, a)?, copy_word(alloc, b)?)),
        CCond::Not(t) => Ok(CCond::Not(Boxed::new(alloc, copy_cond(alloc, t.get())?)?)),
        CCond::And(t, u) => {
            let t = Boxed::new(alloc, copy_cond(alloc, t.get())?)?;
            let u = Boxed::new(alloc, copy_cond(alloc, u.get())?)?;
            Ok(CCond::And(t, u))
        }
        CCond::Or(t, u) => {
            let t = Boxed::new(alloc, copy_cond(alloc, t.get())?)?;
            let u = Boxed::new(alloc, copy_cond(alloc, u.get())?)?;
            Ok(CCond::Or(t, u))
        }
    }
}
