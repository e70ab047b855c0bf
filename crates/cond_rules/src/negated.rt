//! Negations of Conds.

ghost use Rattle.std.specs.Prelude.{◌≡◌, IfOk};
ghost use Rattle.c_words.specs.Built.{cmp as cmp_of};
ghost use Rattle.cond_rules.specs.Negation.{IsNegation};

use c_syntax::{CCmp, CCond, CExpr};
use c_words::{and, cmp, copy_cond, copy_word, or};
use std::alloc::{AllocError, Global};

/// The negation of a comparison.
fn opposite(op: CCmp, a: CExpr, b: CExpr) -> CCond
    ensures { IsNegation (cmp_of op a b) result }
{
    match op {
        CCmp::Eq => cmp(CCmp::Ne, a, b),
        CCmp::Ne => cmp(CCmp::Eq, a, b),
        CCmp::Lt => cmp(CCmp::Le, b, a),
        CCmp::Le => cmp(CCmp::Lt, b, a),
    }
}

/// The negation of a Cond: it goes into the comparisons.
pub(crate) fn negated(alloc: Global, t: &CCond) -> Result<CCond, AllocError>
    ensures { IfOk result (IsNegation t.now) }
{
    match t {
        CCond::Cmp(op, a, b) => {
            let a = copy_word(alloc, a)?;
            let b = copy_word(alloc, b)?;
            Ok(opposite(*op, a, b))
        }
        CCond::Not(t) => copy_cond(alloc, t.get()),
        CCond::And(t, u) => {
            let t = negated(alloc, t.get())?;
            let u = negated(alloc, u.get())?;
            or(alloc, t, u)
        }
        CCond::Or(t, u) => {
            let t = negated(alloc, t.get())?;
            let u = negated(alloc, u.get())?;
            and(alloc, t, u)
        }
    }
}
