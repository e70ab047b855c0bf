//! Words and Conds.

ghost use Rattle.std.specs.Prelude.{IfOk, IsTrue};
ghost use Rattle.word_rules.specs.Standing.{ForCond, ForWord};
ghost use Rattle.word_rules.specs.Plain.{is_plain, is_plain_cond};

use c_syntax::{CCond, CExpr};
use cond_rules::{compared_cond, compared_word};
use std::alloc::{AllocError, Global};
use word_rules::{plain_cond, plain_word};

/// A Word that may stand for the given one: with its value wherever that has one, no more parts, comparisons in the place of
/// flags, and nowhere an operation on two numbers, a sum with 0 or the like, or a complement of a number or of a complement.
pub fn rewrite(alloc: Global, e: &CExpr) -> Result<CExpr, AllocError>
    ensures stands { IfOk result (ForWord e.now) }
    ensures plain { IfOk result (λ r. IsTrue (is_plain r)) }
{
    let compared = compared_word(alloc, e)?;
    let made = plain_word(alloc, &compared)?;
    drop(compared);
    Ok(made)
}

/// A Cond that may stand for the given one, likewise.
pub fn rewrite_cond(alloc: Global, t: &CCond) -> Result<CCond, AllocError>
    ensures stands { IfOk result (ForCond t.now) }
    ensures plain { IfOk result (λ r. IsTrue (is_plain_cond r)) }
{
    let compared = compared_cond(alloc, t)?;
    let made = plain_cond(alloc, &compared)?;
    drop(compared);
    Ok(made)
}
