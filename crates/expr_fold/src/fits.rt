//! How deep words nest.

ghost use Rattle.std.specs.Prelude.{◌≡◌, nat_le};
ghost use Rattle.c_syntax.specs.Depth.{word_depth, cond_depth};

use c_syntax::{CCond, CExpr};

/// Whether a Word is at most so deep.
#[cycle(fits)]
pub fn word_fits(e: &CExpr, depth: u32) -> bool
    ensures { result ≡ nat_le (word_depth e.now) depth }
{
    if depth == 0 {
        return false;
    }
    match e {
        CExpr::Num(_) => true,
        CExpr::Name(_) => true,
        CExpr::Not(a) => word_fits(a.get(), depth - 1),
        CExpr::Bin(_, a, b) => word_fits(a.get(), depth - 1) && word_fits(b.get(), depth - 1),
        CExpr::Fn1(_, a) => word_fits(a.get(), depth - 1),
        CExpr::Fn2(_, a, b) => word_fits(a.get(), depth - 1) && word_fits(b.get(), depth - 1),
        CExpr::Fn3(_, a, b, c) => {
            word_fits(a.get(), depth - 1)
                && word_fits(b.get(), depth - 1)
                && word_fits(c.get(), depth - 1)
        }
        CExpr::Pick(t, a, b) => {
            cond_fits(t.get(), depth - 1)
                && word_fits(a.get(), depth - 1)
                && word_fits(b.get(), depth - 1)
        }
    }
}

/// Whether a Cond is at most so deep.
#[cycle(fits)]
pub fn cond_fits(t: &CCond, depth: u32) -> bool
    ensures { result ≡ nat_le (cond_depth t.now) depth }
{
    if depth == 0 {
        return false;
    }
    match t {
        CCond::Cmp(_, a, b) => word_fits(a, depth - 1) && word_fits(b, depth - 1),
        CCond::Not(t) => cond_fits(t.get(), depth - 1),
        CCond::And(t, u) => cond_fits(t.get(), depth - 1) && cond_fits(u.get(), depth - 1),
        CCond::Or(t, u) => cond_fits(t.get(), depth - 1) && cond_fits(u.get(), depth - 1),
    }
}
