//! Statements without the Sets of locals that aren't kept.

ghost use Rattle.std.specs.Prelude.{◌≡◌, map, IfOk};
ghost use Rattle.c_locals.specs.Settled.{settled_stmt, settled_arm, settled_group, settled_all};

use crate::locals::Locals;
use crate::words::{cond, word};
use c_syntax::{CArm, CGroup, CStmt};
use sqlite_items::Items;
use std::alloc::{AllocError, Global};

/// A statement with new names. None where it sets a local that isn't kept.
#[cycle(settled)]
fn stmt(alloc: Global, l: &Locals, s: &CStmt) -> Result<Option<CStmt>, AllocError>
    ensures { IfOk result (λ r. r ≡ settled_stmt l.now s.now) }
{
    match s {
        CStmt::Set(n, e) => {
            if l.keeps(*n) {
                let e = word(alloc, l, e)?;
                Ok(Some(CStmt::Set(l.name(*n), e)))
            } else {
                Ok(None)
            }
        }
        CStmt::Load(n, width, e) => {
            let e = word(alloc, l, e)?;
            Ok(Some(CStmt::Load(l.name(*n), *width, e)))
        }
        CStmt::Store(width, e, v) => {
            let e = word(alloc, l, e)?;
            let v = word(alloc, l, v)?;
            Ok(Some(CStmt::Store(*width, e, v)))
        }
        CStmt::Ext(e) => Ok(Some(CStmt::Ext(word(alloc, l, e)?))),
        CStmt::Trap(vector, e) => Ok(Some(CStmt::Trap(*vector, word(alloc, l, e)?))),
        CStmt::If(arms, last) => {
            let arms = in_arms(alloc, l, arms.as_slice())?;
            match last {
                None => Ok(Some(CStmt::If(arms, None))),
                Some(body) => {
                    let body = stmts(alloc, l, body.as_slice())?;
                    Ok(Some(CStmt::If(arms, Some(body))))
                }
            }
        }
        CStmt::Switch(e, groups, last) => {
            let e = word(alloc, l, e)?;
            let groups = in_groups(alloc, l, groups.as_slice())?;
            let last = stmts(alloc, l, last.as_slice())?;
            Ok(Some(CStmt::Switch(e, groups, last)))
        }
        CStmt::Loop(body) => Ok(Some(CStmt::Loop(stmts(alloc, l, body.as_slice())?))),
        CStmt::While(t, body) => {
            let t = cond(alloc, l, t)?;
            let body = stmts(alloc, l, body.as_slice())?;
            Ok(Some(CStmt::While(t, body)))
        }
        CStmt::DoWhile(body, t) => {
            let body = stmts(alloc, l, body.as_slice())?;
            let t = cond(alloc, l, t)?;
            Ok(Some(CStmt::DoWhile(body, t)))
        }
        CStmt::Break => Ok(Some(CStmt::Break)),
        CStmt::Return => Ok(Some(CStmt::Return)),
    }
}

/// Statements with new names, without the Sets of locals that aren't kept.
#[cycle(settled)]
pub(crate) fn stmts(alloc: Global, l: &Locals, body: &[CStmt]) -> Result<Items<CStmt>, AllocError>
    ensures { IfOk result (λ r. r ≡ settled_all l.now body.now) }
{
    let mut kept = Items::new(alloc);
    for s in body {
        match stmt(alloc, l, s)? {
            None => {}
            Some(s) => kept.push(s)?,
        }
    }
    Ok(kept)
}

#[cycle(settled)]
fn in_arms(alloc: Global, l: &Locals, arms: &[CArm]) -> Result<Items<CArm>, AllocError>
    ensures { IfOk result (λ r. r ≡ map (settled_arm l.now) arms.now) }
{
    let mut kept = Items::new(alloc);
    for a in arms {
        let test = cond(alloc, l, &a.test)?;
        let body = stmts(alloc, l, a.body.as_slice())?;
        kept.push(CArm { test, body })?;
    }
    Ok(kept)
}

#[cycle(settled)]
fn in_groups(alloc: Global, l: &Locals, groups: &[CGroup]) -> Result<Items<CGroup>, AllocError>
    ensures { IfOk result (λ r. r ≡ map (settled_group l.now) groups.now) }
{
    let mut kept = Items::new(alloc);
    for g in groups {
        let values = Items::from_slice(alloc, g.values.as_slice())?;
        let body = stmts(alloc, l, g.body.as_slice())?;
        kept.push(CGroup { values, body })?;
    }
    Ok(kept)
}
