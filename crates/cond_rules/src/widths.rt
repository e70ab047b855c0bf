//! Parts of Words by a width.

ghost use Rattle.std.specs.Prelude.{◌≡◌, ◌-◌, ◌^◌, IsTrue, IfOk, IfSome};
ghost use Rattle.c_words.specs.Built.{num as num_of, bin as bin_of};
ghost use Rattle.c_syntax.specs.declared.syntax.CBin.TheVariants as op;
ghost use Rattle.word_rules.specs.Standing.{ForWord};
ghost use Rattle.cond_rules.specs.Widths.{bits_at, low_of, top_of, signed_of, overflow_of, is_equality, IsWithin};

use crate::shapes::{as_bin, as_number};
use c_syntax::{CBin, CCmp, CExpr, CFn1};
use c_words::{bin, copy_word, fn1, num};
use dream_words::Width;
use std::alloc::{AllocError, Global};
use word_rules::known;

/// Whether a comparison tells equal words from others.
pub(crate) fn is_equality(op: CCmp) -> bool
    ensures { result ≡ is_equality op }
{
    match op {
        CCmp::Eq => true,
        CCmp::Ne => true,
        CCmp::Lt => false,
        CCmp::Le => false,
    }
}

/// How many bits a width has.
fn bits(w: Width) -> u32
    ensures { result ≡ bits_at w }
{
    match w {
        Width::B => 8,
        Width::H => 16,
        Width::W => 32,
    }
}

/// The greatest number of a width.
pub(crate) fn greatest(w: Width) -> u32
    ensures { result ≡ 2 ^ bits_at w - 1 }
{
    match w {
        Width::B => 0xff,
        Width::H => 0xffff,
        Width::W => 0xffff_ffff,
    }
}

/// Whether each value of a Word is seen to be below 2 to the number of bits.
pub(crate) fn is_within(w: Width, e: &CExpr) -> bool
    ensures { IsTrue result → IsWithin w e.now }
{
    known(e) <= greatest(w)
}

/// Whether a Word is a number.
pub(crate) fn is_number(e: &CExpr, n: u32) -> bool
    ensures { IsTrue result → e.now ≡ num_of n }
{
    match e {
        CExpr::Num(k) => *k == n,
        _ => false,
    }
}

/// The Word whose bits a mask keeps.
fn under_mask(e: &CExpr, mask: u32) -> Option<&CExpr>
    ensures { IfSome result (λ a. e.now ≡ bin_of op.And a.now (num_of mask)) }
{
    let Some((a, b)) = as_bin(CBin::And, e) else {
        return None;
    };
    if is_number(b, mask) {
        return Some(a);
    }
    None
}

/// The Word whose low part a Word is.
pub(crate) fn as_low(w: Width, e: &CExpr) -> Option<&CExpr>
    ensures { IfSome result (λ a. e.now ≡ low_of w a.now) }
{
    match w {
        Width::B => under_mask(e, 0xff),
        Width::H => under_mask(e, 0xffff),
        Width::W => Some(e),
    }
}

/// The Word that is shifted to the top bit of a width.
fn as_top_of(w: Width, e: &CExpr) -> Option<&CExpr>
    ensures { IfSome result (λ a. e.now ≡ top_of w a.now) }
{
    let Some((a, b)) = as_bin(CBin::Shr, e) else {
        return None;
    };
    if is_number(b, bits(w) - 1) {
        return Some(a);
    }
    None
}

/// The same with its width.
pub(crate) fn as_top(e: &CExpr) -> Option<(Width, &CExpr)>
    ensures { IfSome result (λ p. e.now ≡ top_of p.0 p.1.now) }
{
    if let Some(a) = as_top_of(Width::B, e) {
        return Some((Width::B, a));
    }
    if let Some(a) = as_top_of(Width::H, e) {
        return Some((Width::H, a));
    }
    if let Some(a) = as_top_of(Width::W, e) {
        return Some((Width::W, a));
    }
    None
}

/// The Word of the overflow of a difference r of x and y.
pub(crate) fn overflow(
    alloc: Global,
    w: Width,
    x: &CExpr,
    y: &CExpr,
    r: &CExpr,
) -> Result<CExpr, AllocError>
    ensures { IfOk result (λ o. o ≡ overflow_of w x.now y.now r.now) }
{
    let left = joined(alloc, x, y)?;
    let right = joined(alloc, x, r)?;
    let both = bin(alloc, CBin::And, left, right)?;
    bin(alloc, CBin::Shr, both, num(bits(w) - 1))
}

/// `x ^ y`, of copies.
fn joined(alloc: Global, x: &CExpr, y: &CExpr) -> Result<CExpr, AllocError>
    ensures { IfOk result (λ o. o ≡ bin_of op.Xor x.now y.now) }
{
    let x = copy_word(alloc, x)?;
    let y = copy_word(alloc, y)?;
    bin(alloc, CBin::Xor, x, y)
}

/// The low bits of a Word, extended by their sign; a mask of these bits is left out.
pub(crate) fn signed(alloc: Global, w: Width, e: &CExpr) -> Result<CExpr, AllocError>
    ensures { IfOk result (ForWord (signed_of w e.now)) }
{
    let Some(a) = as_low(w, e) else {
        let e = copy_word(alloc, e)?;
        return extended(alloc, w, e);
    };
    let a = copy_word(alloc, a)?;
    extended(alloc, w, a)
}

/// The low bits of a Word, extended by their sign.
pub(crate) fn extended(alloc: Global, w: Width, e: CExpr) -> Result<CExpr, AllocError>
    ensures { IfOk result (λ r. r ≡ signed_of w e) }
{
    match w {
        Width::B => fn1(alloc, CFn1::Sx1, e),
        Width::H => fn1(alloc, CFn1::Sx2, e),
        Width::W => Ok(e),
    }
}
