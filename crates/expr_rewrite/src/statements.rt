//! Statements and ends of a flow with rewritten Words.

ghost use Rattle.std.specs.Prelude.{IfOk};
ghost use Rattle.expr_rewrite.specs.Pairs.{Pairs};
ghost use Rattle.expr_rewrite.specs.Rewritten.{StandsForCond, StandsForEnd, StandsForStmt, StandsForWord};

use crate::words::{rewrite, rewrite_cond};
use c_syntax::{CCond, CExpr};
use c_words::{copy_cond, copy_word};
use expr_fold::{cond_fits, word_fits};
use micro_ir::{End, Stmt};
use sqlite_items::Items;
use std::alloc::{AllocError, Global};

/// The deepest that a Word or Cond of a flow nests.
const DEPTH: u32 = 64;

/// The rewritten Word; the old one where that nests too deep.
fn word(alloc: Global, e: &CExpr) -> Result<CExpr, AllocError>
    ensures { IfOk result (StandsForWord e.now) }
{
    let made = rewrite(alloc, e)?;
    if word_fits(&made, DEPTH) {
        Ok(made)
    } else {
        copy_word(alloc, e)
    }
}

/// The rewritten Cond; the old one where that nests too deep.
fn cond(alloc: Global, t: &CCond) -> Result<CCond, AllocError>
    ensures { IfOk result (StandsForCond t.now) }
{
    let made = rewrite_cond(alloc, t)?;
    if cond_fits(&made, DEPTH) {
        Ok(made)
    } else {
        copy_cond(alloc, t)
    }
}

/// A statement with rewritten Words.
fn stmt(alloc: Global, s: &Stmt) -> Result<Stmt, AllocError>
    ensures { IfOk result (StandsForStmt s.now) }
{
    match s {
        Stmt::Set(n, e) => Ok(Stmt::Set(*n, word(alloc, e)?)),
        Stmt::Load(n, width, e) => Ok(Stmt::Load(*n, *width, word(alloc, e)?)),
        Stmt::Store(width, e, f) => {
            let e = word(alloc, e)?;
            let f = word(alloc, f)?;
            Ok(Stmt::Store(*width, e, f))
        }
        Stmt::Ext(e) => Ok(Stmt::Ext(word(alloc, e)?)),
        Stmt::Trap(vector, e) => Ok(Stmt::Trap(*vector, word(alloc, e)?)),
    }
}

/// Statements with rewritten Words.
pub(crate) fn stmts(alloc: Global, all: &[Stmt]) -> Result<Items<Stmt>, AllocError>
    ensures { IfOk result (Pairs StandsForStmt all.now) }
{
    let mut made = Items::new(alloc);
    for s in all {
        made.push(stmt(alloc, s)?)?;
    }
    Ok(made)
}

/// An end with a rewritten Word or Cond.
pub(crate) fn end(alloc: Global, e: &End) -> Result<End, AllocError>
    ensures { IfOk result (StandsForEnd e.now) }
{
    match e {
        End::Go(a) => Ok(End::Go(*a)),
        End::Branch(t, a, b) => Ok(End::Branch(cond(alloc, t)?, *a, *b)),
        End::Switch(e, cases) => {
            let e = word(alloc, e)?;
            let cases = Items::from_slice(alloc, cases.as_slice())?;
            Ok(End::Switch(e, cases))
        }
        End::Return => Ok(End::Return),
        End::Leave(e) => Ok(End::Leave(word(alloc, e)?)),
    }
}
