//! Whether two Words or two Conds are equal.

ghost use Rattle.std.specs.Prelude.{◌≡◌, ◌↔◌, IsTrue};

use c_syntax::{CCond, CExpr};

/// Whether two Words are equal.
#[cycle(same_word)]
pub fn same_word(e: &CExpr, f: &CExpr) -> bool
    ensures { IsTrue result ↔ (e.now ≡ f.now) }
{
    match (e, f) {
        (CExpr::Num(a), CExpr::Num(b)) => *a == *b,
        (CExpr::Name(a), CExpr::Name(b)) => *a == *b,
        (CExpr::Not(a), CExpr::Not(b)) => same_word(a.get(), b.get()),
        (CExpr::Bin(o, a, b), CExpr::Bin(p, c, d)) => {
            *o == *p && same_word(a.get(), c.get()) && same_word(b.get(), d.get())
        }
        (CExpr::Fn1(o, a), CExpr::Fn1(p, c)) => *o == *p && same_word(a.get(), c.get()),
        (CExpr::Fn2(o, a, b), CExpr::Fn2(p, c, d)) => {
            *o == *p && same_word(a.get(), c.get()) && same_word(b.get(), d.get())
        }
        (CExpr::Fn3(o, a, b, x), CExpr::Fn3(p, c, d, y)) => {
            *o == *p
                && same_word(a.get(), c.get())
                && same_word(b.get(), d.get())
                && same_word(x.get(), y.get())
        }
        (CExpr::Pick(t, a, b), CExpr::Pick(u, c, d)) => {
            same_cond(t.get(), u.get())
                && same_word(a.get(), c.get())
                && same_word(b.get(), d.get())
        }
        _ => false,
    }
}

/// Whether two Conds are equal.
#[cycle(same_word)]
pub fn same_cond(t: &CCond, u: &CCond) -> bool
    ensures { IsTrue result ↔ (t.now ≡ u.now) }
{
    match (t, u) {
        (CCond::Cmp(o, a, b), CCond::Cmp(p, c, d)) => *o == *p
            && same_word(a, c)
            && same_word(b, d),
        (CCond::Not(t), CCond::Not(u)) => same_cond(t.get(), u.get()),
        (CCond::And(t, a), CCond::And(u, b)) => same_cond(t.get(), u.get())
            && same_cond(a.get(), b.get()),
        (CCond::Or(t, a), CCond::Or(u, b)) => same_cond(t.get(), u.get())
            && same_cond(a.get(), b.get()),
        _ => false,
    }
}
