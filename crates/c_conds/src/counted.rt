//! How many comparisons a Cond has.

use c_syntax::CCond;

/// How many comparisons a Cond has, not counting those in its Words. A `!`, `&&` and `||` count none.
pub(crate) fn comparisons(t: &CCond) -> u32 {
    match t {
        CCond::Cmp(_, _, _) => 1,
        CCond::Not(t) => comparisons(t.get()),
        CCond::And(t, u) => comparisons(t.get()).saturating_add(comparisons(u.get())),
        CCond::Or(t, u) => comparisons(t.get()).saturating_add(comparisons(u.get())),
    }
}
