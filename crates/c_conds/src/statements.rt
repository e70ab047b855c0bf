//! Statements with the conditions of locals in the place of the locals, in the tests of the statements directly after.

ghost use Rattle.std.specs.Prelude.{IfOk};
ghost use Rattle.c_conds.specs.Placed.{FollowsLike, AreLike, ArmsLike, GroupsLike};

use crate::placing::test_after;
use c_syntax::{CArm, CGroup, CStmt};
use c_words::{copy_cond, copy_word};
use sqlite_items::Items;
use std::alloc::{AllocError, Global};

/// A statement after others, with the conditions in its tests.
#[cycle(with_conds)]
fn stmt(alloc: Global, far: &[u32], s: &CStmt, before: &[CStmt]) -> Result<CStmt, AllocError>
    ensures { IfOk result (λ t. FollowsLike before.now s.now t) }
{
    match s {
        CStmt::Set(n, e) => {
            let e = copy_word(alloc, e)?;
            Ok(CStmt::Set(*n, e))
        }
        CStmt::Load(n, width, e) => {
            let e = copy_word(alloc, e)?;
            Ok(CStmt::Load(*n, *width, e))
        }
        CStmt::Store(width, e, v) => {
            let e = copy_word(alloc, e)?;
            let v = copy_word(alloc, v)?;
            Ok(CStmt::Store(*width, e, v))
        }
        CStmt::Ext(e) => {
            let e = copy_word(alloc, e)?;
            Ok(CStmt::Ext(e))
        }
        CStmt::Trap(vector, e) => {
            let e = copy_word(alloc, e)?;
            Ok(CStmt::Trap(*vector, e))
        }
        CStmt::If(arms, last) => {
            let arms = in_arms(alloc, far, arms.as_slice(), before)?;
            match last {
                None => Ok(CStmt::If(arms, None)),
                Some(body) => {
                    let body = stmts(alloc, far, body.as_slice())?;
                    Ok(CStmt::If(arms, Some(body)))
                }
            }
        }
        CStmt::Switch(e, groups, last) => {
            let e = copy_word(alloc, e)?;
            let groups = in_groups(alloc, far, groups.as_slice())?;
            let last = stmts(alloc, far, last.as_slice())?;
            Ok(CStmt::Switch(e, groups, last))
        }
        CStmt::Loop(body) => {
            let body = stmts(alloc, far, body.as_slice())?;
            Ok(CStmt::Loop(body))
        }
        CStmt::While(t, body) => {
            let t = copy_cond(alloc, t)?;
            let body = stmts(alloc, far, body.as_slice())?;
            Ok(CStmt::While(t, body))
        }
        CStmt::DoWhile(body, t) => {
            let body = stmts(alloc, far, body.as_slice())?;
            let t = test_after(alloc, far, body.as_slice(), t)?;
            Ok(CStmt::DoWhile(body, t))
        }
        CStmt::Break => Ok(CStmt::Break),
        CStmt::Return => Ok(CStmt::Return),
    }
}

/// Statements with the conditions in their tests.
#[cycle(with_conds)]
pub(crate) fn stmts(alloc: Global, far: &[u32], body: &[CStmt]) -> Result<Items<CStmt>, AllocError>
    ensures { IfOk result (λ ts. AreLike body.now ts) }
{
    let mut kept = Items::new(alloc);
    for s in body {
        let t = stmt(alloc, far, s, kept.as_slice())?;
        kept.push(t)?;
    }
    Ok(kept)
}

/// The arms of an `if` after statements, with the conditions in their tests: no test changes what the next one reads.
#[cycle(with_conds)]
fn in_arms(
    alloc: Global,
    far: &[u32],
    arms: &[CArm],
    before: &[CStmt],
) -> Result<Items<CArm>, AllocError>
    ensures { IfOk result (λ bs. ArmsLike before.now arms.now bs) }
{
    let mut kept = Items::new(alloc);
    for a in arms {
        let test = test_after(alloc, far, before, &a.test)?;
        let body = stmts(alloc, far, a.body.as_slice())?;
        kept.push(CArm { test, body })?;
    }
    Ok(kept)
}

/// The groups of a `switch`, with the conditions in the tests of their bodies.
#[cycle(with_conds)]
fn in_groups(alloc: Global, far: &[u32], groups: &[CGroup]) -> Result<Items<CGroup>, AllocError>
    ensures { IfOk result (λ bs. GroupsLike groups.now bs) }
{
    let mut kept = Items::new(alloc);
    for g in groups {
        let values = Items::from_slice(alloc, g.values.as_slice())?;
        let body = stmts(alloc, far, g.body.as_slice())?;
        kept.push(CGroup { values, body })?;
    }
    Ok(kept)
}
