//! The opposite of a Cond.

ghost use Rattle.std.specs.Prelude.{IfOk};
ghost use Rattle.c_words.specs.Built.{cmp as compared};
ghost use Rattle.c_conds.specs.Placed.{IsOpposite};

use c_syntax::{CCmp, CCond, CExpr};
use c_words::cond_not;
use sqlite_items::Boxed;
use std::alloc::{AllocError, Global};

/// The opposite of a comparison: of `==` it is `!=`, of `a < b` it is `b <= a`, and the other way round.
fn comparison(op: CCmp, a: CExpr, b: CExpr) -> CCond
    ensures { IsOpposite (compared op a b) result }
{
    match op {
        CCmp::Eq => CCond::Cmp(CCmp::Ne, a, b),
        CCmp::Ne => CCond::Cmp(CCmp::Eq, a, b),
        CCmp::Lt => CCond::Cmp(CCmp::Le, b, a),
        CCmp::Le => CCond::Cmp(CCmp::Lt, b, a),
    }
}

/// The opposite of a Cond: `!` goes into a comparison, and two of them are none.
pub(crate) fn opposite(alloc: Global, t: CCond) -> Result<CCond, AllocError>
    ensures { IfOk result (λ u. IsOpposite t u) }
{
    match t {
        CCond::Cmp(op, a, b) => Ok(comparison(op, a, b)),
        CCond::Not(t) => Ok(t.into_inner()),
        CCond::And(t, u) => cond_not(alloc, CCond::And(t, u)),
        CCond::Or(t, u) => cond_not(alloc, CCond::Or(t, u)),
    }
}
