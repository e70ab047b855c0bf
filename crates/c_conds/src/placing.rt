//! A condition in the place of the local that holds its outcome.

ghost use Rattle.std.specs.Prelude.{◌≡◌, [], ◌∷◌, IsTrue, IfOk, IfSome};
ghost use Rattle.dream_words.specs.declared.machine.Name.TheVariants as name;
ghost use Rattle.c_words.specs.Built.{num as number, name as local, cmp as compared};
ghost use Rattle.c_conds.specs.Free.{free_cond};
ghost use Rattle.c_conds.specs.Placed.{IsPlaced, IsSmall, SetHolds, HoldsAfter};

use crate::counted::comparisons;
use crate::free;
use crate::opposite::opposite;
use c_syntax::{CCmp, CCond, CExpr, CStmt};
use c_words::{and, cmp, copy_cond, copy_word, or};
use dream_words::Name;
use expr_fold::cond_fits;
use std::alloc::{AllocError, Global};

/// How deep Words and Conds may nest.
const DEEPEST: u32 = 256;

/// How many comparisons a test may have.
const MOST: u32 = 8;

/// Whether a Word is a number.
fn is_number(e: &CExpr, n: u32) -> bool
    ensures { IsTrue result → e.now ≡ number n }
{
    match e {
        CExpr::Num(m) => *m == n,
        _ => false,
    }
}

/// Whether a Word is a local for the outcome of a test.
fn is_local(e: &CExpr, k: u32) -> bool
    ensures { IsTrue result → e.now ≡ local (name.B k) }
{
    match e {
        CExpr::Name(n) => *n == Name::B(k),
        _ => false,
    }
}

/// Whether two Words are the local and 0.
fn is_tested(k: u32, a: &CExpr, b: &CExpr) -> bool
    ensures local { IsTrue result → a.now ≡ local (name.B k) }
    ensures zero { IsTrue result → b.now ≡ number 0 }
{
    is_local(a, k) && is_number(b, 0)
}

/// An equal comparison.
fn copied(alloc: Global, op: CCmp, a: &CExpr, b: &CExpr) -> Result<CCond, AllocError>
    ensures { IfOk result (λ u. u ≡ compared op a.now b.now) }
{
    let a = copy_word(alloc, a)?;
    let b = copy_word(alloc, b)?;
    Ok(cmp(op, a, b))
}

/// A comparison, in which the condition stands in the place of the local: for `!=` with 0 the condition, and for `==`
/// with 0 its opposite.
fn placed_cmp(
    alloc: Global,
    k: u32,
    c: &CCond,
    op: CCmp,
    a: &CExpr,
    b: &CExpr,
) -> Result<CCond, AllocError>
    ensures { IfOk result (λ u. IsPlaced k c.now (compared op a.now b.now) u) }
{
    if is_tested(k, a, b) {
        match op {
            CCmp::Ne => copy_cond(alloc, c),
            CCmp::Eq => {
                let c = copy_cond(alloc, c)?;
                opposite(alloc, c)
            }
            CCmp::Lt => copied(alloc, op, a, b),
            CCmp::Le => copied(alloc, op, a, b),
        }
    } else {
        copied(alloc, op, a, b)
    }
}

/// A Cond, in which the condition stands in the place of the local.
fn placed(alloc: Global, k: u32, c: &CCond, t: &CCond) -> Result<CCond, AllocError>
    ensures { IfOk result (λ u. IsPlaced k c.now t.now u) }
{
    match t {
        CCond::Cmp(op, a, b) => placed_cmp(alloc, k, c, *op, a, b),
        CCond::Not(t) => {
            let u = placed(alloc, k, c, t.get())?;
            opposite(alloc, u)
        }
        CCond::And(t, u) => {
            let t = placed(alloc, k, c, t.get())?;
            let u = placed(alloc, k, c, u.get())?;
            and(alloc, t, u)
        }
        CCond::Or(t, u) => {
            let t = placed(alloc, k, c, t.get())?;
            let u = placed(alloc, k, c, u.get())?;
            or(alloc, t, u)
        }
    }
}

/// Whether the local is read nowhere but in tests directly after it is set.
fn is_read_near(far: &[u32], k: u32) -> bool {
    let place = k as usize;
    place < far.len() && far[place] == 0
}

/// A test with a condition in the place of the local, if it is small enough.
fn small(alloc: Global, k: u32, c: &CCond, t: &CCond) -> Result<Option<CCond>, AllocError>
    ensures { IfOk result (λ o. IfSome o (λ u. IsSmall k c.now t.now u)) }
{
    let u = placed(alloc, k, c, t)?;
    if comparisons(&u) <= MOST && cond_fits(&u, DEEPEST) {
        Ok(Some(u))
    } else {
        Ok(None)
    }
}

/// Whether a local is read nowhere but in tests directly after it is set, and set to the outcome of a condition that doesn't read it.
fn is_outcome(far: &[u32], k: u32, c: &CCond, a: &CExpr, b: &CExpr) -> bool
    ensures one { IsTrue result → a.now ≡ number 1 }
    ensures zero { IsTrue result → b.now ≡ number 0 }
    ensures free { IsTrue result → IsTrue (free_cond k c.now) }
{
    is_number(a, 1) && is_number(b, 0) && free::cond(k, c) && is_read_near(far, k)
}

/// A test after a local is set, with the condition of the local in its place. None where it isn't set to the outcome of
/// a condition, or is read elsewhere too.
fn after_set(
    alloc: Global,
    far: &[u32],
    k: u32,
    e: &CExpr,
    t: &CCond,
) -> Result<Option<CCond>, AllocError>
    ensures { IfOk result (λ o. IfSome o (λ u. SetHolds k e.now t.now u)) }
{
    match e {
        CExpr::Pick(c, a, b) => {
            let c = c.get();
            let a = a.get();
            let b = b.get();
            if is_outcome(far, k, c, a, b) {
                small(alloc, k, c, t)
            } else {
                Ok(None)
            }
        }
        _ => Ok(None),
    }
}

/// A test after a statement.
fn after(alloc: Global, far: &[u32], before: &CStmt, t: &CCond) -> Result<Option<CCond>, AllocError>
    ensures { IfOk result (λ o. IfSome o (λ u. HoldsAfter (before.now ∷ []) t.now u)) }
{
    match before {
        CStmt::Set(n, e) => match n {
            Name::B(k) => after_set(alloc, far, *k, e, t),
            _ => Ok(None),
        },
        _ => Ok(None),
    }
}

/// A test after statements, with the condition of a local in the place of the local.
pub(crate) fn test_after(
    alloc: Global,
    far: &[u32],
    before: &[CStmt],
    t: &CCond,
) -> Result<CCond, AllocError>
    ensures { IfOk result (λ u. HoldsAfter before.now t.now u) }
{
    match before.last() {
        None => copy_cond(alloc, t),
        Some(last) => match after(alloc, far, last, t)? {
            None => copy_cond(alloc, t),
            Some(u) => Ok(u),
        },
    }
}
