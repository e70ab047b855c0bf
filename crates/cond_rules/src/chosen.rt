//! A number that is chosen by a test, compared with a number: the test, or its negation.

ghost use Rattle.std.specs.Prelude.{IfOk, IfSome};
ghost use Rattle.c_words.specs.Built.{cmp as cmp_of};
ghost use Rattle.word_rules.specs.Standing.{ForCond};

use crate::negated::negated;
use crate::shapes::{as_number, as_pick};
use c_syntax::{CCmp, CCond, CExpr};
use c_words::copy_cond;
use std::alloc::{AllocError, Global};

/// `(t ? i : j) cmp k`, where it holds of just one of the numbers i and j.
pub(crate) fn chosen(
    alloc: Global,
    op: CCmp,
    a: &CExpr,
    b: &CExpr,
) -> Result<Option<CCond>, AllocError>
    ensures { IfOk result (λ o. IfSome o (ForCond (cmp_of op a.now b.now))) }
{
    let Some((t, x, y)) = as_pick(a) else {
        return Ok(None);
    };
    let (Some(i), Some(j), Some(k)) = (as_number(x), as_number(y), as_number(b)) else {
        return Ok(None);
    };
    let first = op.apply(i, k);
    let second = op.apply(j, k);
    if first && !second {
        return Ok(Some(copy_cond(alloc, t)?));
    }
    if second && !first {
        return Ok(Some(negated(alloc, t)?));
    }
    Ok(None)
}
