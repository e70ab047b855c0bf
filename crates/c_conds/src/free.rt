//! Whether Words and Conds read a local.

ghost use Rattle.std.specs.Prelude.{◌≡◌};
ghost use Rattle.c_conds.specs.Free.{is_other, free_word, free_cond};

use c_syntax::{CCond, CExpr};
use dream_words::Name;

/// Whether a name isn't a local for the outcome of a test.
fn is_other(k: u32, n: Name) -> bool
    ensures { result ≡ is_other k n }
{
    match n {
        Name::Reg(_) => true,
        Name::Flag(_) => true,
        Name::Fs => true,
        Name::Gs => true,
        Name::T(_) => true,
        Name::B(j) => j != k,
        Name::S(_) => true,
    }
}

/// Whether a Word doesn't read a local for the outcome of a test.
#[cycle(free)]
fn word(k: u32, e: &CExpr) -> bool
    ensures { result ≡ free_word k e.now }
{
    match e {
        CExpr::Num(_) => true,
        CExpr::Name(n) => is_other(k, *n),
        CExpr::Not(a) => word(k, a.get()),
        CExpr::Bin(_, a, b) => word(k, a.get()) && word(k, b.get()),
        CExpr::Fn1(_, a) => word(k, a.get()),
        CExpr::Fn2(_, a, b) => word(k, a.get()) && word(k, b.get()),
        CExpr::Fn3(_, a, b, c) => word(k, a.get()) && word(k, b.get()) && word(k, c.get()),
        CExpr::Pick(t, a, b) => cond(k, t.get()) && word(k, a.get()) && word(k, b.get()),
    }
}

/// Whether a Cond doesn't read a local for the outcome of a test.
#[cycle(free)]
pub(crate) fn cond(k: u32, t: &CCond) -> bool
    ensures { result ≡ free_cond k t.now }
{
    match t {
        CCond::Cmp(_, a, b) => word(k, a) && word(k, b),
        CCond::Not(t) => cond(k, t.get()),
        CCond::And(t, u) => cond(k, t.get()) && cond(k, u.get()),
        CCond::Or(t, u) => cond(k, t.get()) && cond(k, u.get()),
    }
}
