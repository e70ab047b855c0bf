//! The parts of Words and Conds that have a shape.

ghost use Rattle.std.specs.Prelude.{◌≡◌, IfSome};
ghost use Rattle.c_words.specs.Built.{num as num_of, bin as bin_of, pick as pick_of, cmp as cmp_of};
ghost use Rattle.cond_rules.specs.Widths.{less_of};

use c_syntax::{CBin, CCmp, CCond, CExpr, CFn2};

/// A number.
pub(crate) fn as_number(e: &CExpr) -> Option<u32>
    ensures { IfSome result (λ n. e.now ≡ num_of n) }
{
    match e {
        CExpr::Num(n) => Some(*n),
        _ => None,
    }
}

/// The two words that an operator joins.
pub(crate) fn as_bin(op: CBin, e: &CExpr) -> Option<(&CExpr, &CExpr)>
    ensures { IfSome result (λ p. e.now ≡ bin_of op p.0.now p.1.now) }
{
    match e {
        CExpr::Bin(o, a, b) if *o == op => Some((a.get(), b.get())),
        _ => None,
    }
}

/// A choice of two words by a test.
pub(crate) fn as_pick(e: &CExpr) -> Option<(&CCond, &CExpr, &CExpr)>
    ensures { IfSome result (λ p. e.now ≡ pick_of p.0.now p.1.now p.2.now) }
{
    match e {
        CExpr::Pick(t, a, b) => Some((t.get(), a.get(), b.get())),
        _ => None,
    }
}

/// The two words that a comparison compares.
pub(crate) fn as_cmp(op: CCmp, t: &CCond) -> Option<(&CExpr, &CExpr)>
    ensures { IfSome result (λ p. t.now ≡ cmp_of op p.0.now p.1.now) }
{
    match t {
        CCond::Cmp(o, a, b) if *o == op => Some((a, b)),
        _ => None,
    }
}

/// The two words that `lts` compares.
pub(crate) fn as_less(e: &CExpr) -> Option<(&CExpr, &CExpr)>
    ensures { IfSome result (λ p. e.now ≡ less_of p.0.now p.1.now) }
{
    match e {
        CExpr::Fn2(f, a, b) if *f == CFn2::Lts => Some((a.get(), b.get())),
        _ => None,
    }
}
