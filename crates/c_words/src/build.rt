//! Words and Conds by their parts.

ghost use Rattle.std.specs.Prelude.{◌≡◌, IfOk};
ghost use Rattle.c_words.specs.Built.{num as num_of, name as name_of, word_not as not_of, bin as bin_of, fn1 as fn1_of, fn2 as fn2_of, fn3 as fn3_of, pick as pick_of, cmp as cmp_of, cond_not as opposite_of, and as both_of, or as either_of, word_if as word_by};

use c_syntax::{CBin, CCmp, CCond, CExpr, CFn1, CFn2, CFn3};
use dream_words::Name;
use sqlite_items::Boxed;
use std::alloc::{AllocError, Global};

/// A number.
pub fn num(n: u32) -> CExpr
    ensures { result ≡ num_of n }
{
    CExpr::Num(n)
}

/// A name.
pub fn name(n: Name) -> CExpr
    ensures { result ≡ name_of n }
{
    CExpr::Name(n)
}

/// `~a`.
pub fn word_not(alloc: Global, a: CExpr) -> Result<CExpr, AllocError>
    ensures { IfOk result (λ e. e ≡ not_of a) }
{
    Ok(CExpr::Not(Boxed::new(alloc, a)?))
}

/// An operator of two words.
pub fn bin(alloc: Global, op: CBin, a: CExpr, b: CExpr) -> Result<CExpr, AllocError>
    ensures { IfOk result (λ e. e ≡ bin_of op a b) }
{
    let a = Boxed::new(alloc, a)?;
    let b = Boxed::new(alloc, b)?;
    Ok(CExpr::Bin(op, a, b))
}

/// A function of one word.
pub fn fn1(alloc: Global, f: CFn1, a: CExpr) -> Result<CExpr, AllocError>
    ensures { IfOk result (λ e. e ≡ fn1_of f a) }
{
    Ok(CExpr::Fn1(f, Boxed::new(alloc, a)?))
}

/// A function of two words.
pub fn fn2(alloc: Global, f: CFn2, a: CExpr, b: CExpr) -> Result<CExpr, AllocError>
    ensures { IfOk result (λ e. e ≡ fn2_of f a b) }
{
    let a = Boxed::new(alloc, a)?;
    let b = Boxed::new(alloc, b)?;
    Ok(CExpr::Fn2(f, a, b))
}

/// A function of three words.
pub fn fn3(alloc: Global, f: CFn3, a: CExpr, b: CExpr, c: CExpr) -> Result<CExpr, AllocError>
    ensures { IfOk result (λ e. e ≡ fn3_of f a b c) }
{
    let a = Boxed::new(alloc, a)?;
    let b = Boxed::new(alloc, b)?;
    let c = Boxed::new(alloc, c)?;
    Ok(CExpr::Fn3(f, a, b, c))
}

/// `t ? a : b`.
pub fn pick(alloc: Global, t: CCond, a: CExpr, b: CExpr) -> Result<CExpr, AllocError>
    ensures { IfOk result (λ e. e ≡ pick_of t a b) }
{
    let t = Boxed::new(alloc, t)?;
    let a = Boxed::new(alloc, a)?;
    let b = Boxed::new(alloc, b)?;
    Ok(CExpr::Pick(t, a, b))
}

/// A comparison.
pub fn cmp(op: CCmp, a: CExpr, b: CExpr) -> CCond
    ensures { result ≡ cmp_of op a b }
{
    CCond::Cmp(op, a, b)
}

/// `!t`.
pub fn cond_not(alloc: Global, t: CCond) -> Result<CCond, AllocError>
    ensures { IfOk result (λ c. c ≡ opposite_of t) }
{
    Ok(CCond::Not(Boxed::new(alloc, t)?))
}

/// `t && u`.
pub fn and(alloc: Global, t: CCond, u: CCond) -> Result<CCond, AllocError>
    ensures { IfOk result (λ c. c ≡ both_of t u) }
{
    let t = Boxed::new(alloc, t)?;
    let u = Boxed::new(alloc, u)?;
    Ok(CCond::And(t, u))
}

/// `t || u`.
pub fn or(alloc: Global, t: CCond, u: CCond) -> Result<CCond, AllocError>
    ensures { IfOk result (λ c. c ≡ either_of t u) }
{
    let t = Boxed::new(alloc, t)?;
    let u = Boxed::new(alloc, u)?;
    Ok(CCond::Or(t, u))
}

/// 1 where the condition is true, else 0.
pub fn word_if(alloc: Global, t: CCond) -> Result<CExpr, AllocError>
    ensures { IfOk result (λ e. e ≡ word_by t) }
{
    pick(alloc, t, num(1), num(0))
}
