//! Words, conditions and statements of a tree as C, with their locals renumbered.

ghost use Rattle.std.specs.Prelude.{◌≡◌, ◌++◌, map, IfOk};
ghost use Rattle.c_emit.specs.Emitted.{new_name, renamed_word, renamed_cond, always_cond, never_cond, lit_cond, term_cond, word_to, stmt_of, stuck_stmt, end_stmts, block_stmts};

use crate::locals::Locals;
use c_syntax::{CBin, CCmp, CCond, CExpr, CStmt};
use c_words::{and, bin, cmp, cond_not, name, num, or, word_if};
use cond_terms::{Lit, Term};
use dream_words::Name;
use guarded::SetTo;
use micro_ir::{Block, End, Stmt};
use sqlite_items::{Boxed, Items};
use std::alloc::{AllocError, Global};

/// A Word with its locals renumbered.
#[cycle(renamed)]
pub(crate) fn word(alloc: Global, l: &Locals, e: &CExpr) -> Result<CExpr, AllocError>
    ensures { IfOk result (λ r. r ≡ renamed_word (new_name l.now) e.now) }
{
    match e {
        CExpr::Num(n) => Ok(CExpr::Num(*n)),
        CExpr::Name(n) => Ok(CExpr::Name(l.name(*n))),
        CExpr::Not(a) => Ok(CExpr::Not(boxed(alloc, l, a)?)),
        CExpr::Bin(op, a, b) => Ok(CExpr::Bin(*op, boxed(alloc, l, a)?, boxed(alloc, l, b)?)),
        CExpr::Fn1(f, a) => Ok(CExpr::Fn1(*f, boxed(alloc, l, a)?)),
        CExpr::Fn2(f, a, b) => Ok(CExpr::Fn2(*f, boxed(alloc, l, a)?, boxed(alloc, l, b)?)),
        CExpr::Fn3(f, a, b, c) => {
            let a = boxed(alloc, l, a)?;
            let b = boxed(alloc, l, b)?;
            let c = boxed(alloc, l, c)?;
            Ok(CExpr::Fn3(*f, a, b, c))
        }
        CExpr::Pick(t, a, b) => {
            let t = boxed_cond(alloc, l, t)?;
            let a = boxed(alloc, l, a)?;
            let b = boxed(alloc, l, b)?;
            Ok(CExpr::Pick(t, a, b))
        }
    }
}

#[cycle(renamed)]
fn boxed(alloc: Global, l: &Locals, e: &Boxed<CExpr>) -> Result<Boxed<CExpr>, AllocError>
    ensures { IfOk result (λ r. r ≡ renamed_word (new_name l.now) e.now) }
{
    let e = word(alloc, l, e.get())?;
    Boxed::new(alloc, e)
}

/// A Cond with its locals renumbered.
#[cycle(renamed)]
pub(crate) fn cond(alloc: Global, l: &Locals, t: &CCond) -> Result<CCond, AllocError>
    ensures { IfOk result (λ r. r ≡ renamed_cond (new_name l.now) t.now) }
{
    match t {
        CCond::Cmp(op, a, b) => Ok(CCond::Cmp(*op, word(alloc, l, a)?, word(alloc, l, b)?)),
        CCond::Not(t) => Ok(CCond::Not(boxed_cond(alloc, l, t)?)),
        CCond::And(t, u) => Ok(CCond::And(boxed_cond(alloc, l, t)?, boxed_cond(alloc, l, u)?)),
        CCond::Or(t, u) => Ok(CCond::Or(boxed_cond(alloc, l, t)?, boxed_cond(alloc, l, u)?)),
    }
}

#[cycle(renamed)]
fn boxed_cond(alloc: Global, l: &Locals, t: &Boxed<CCond>) -> Result<Boxed<CCond>, AllocError>
    ensures { IfOk result (λ r. r ≡ renamed_cond (new_name l.now) t.now) }
{
    let t = cond(alloc, l, t.get())?;
    Boxed::new(alloc, t)
}

/// True, as a Cond.
fn always(alloc: Global) -> Result<CCond, AllocError>
    ensures { IfOk result (λ r. r ≡ always_cond) }
{
    or(
        alloc,
        cmp(CCmp::Eq, num(0), num(0)),
        cmp(CCmp::Eq, num(0), num(0)),
    )
}

/// False, as a Cond.
fn never(alloc: Global) -> Result<CCond, AllocError>
    ensures { IfOk result (λ r. r ≡ never_cond) }
{
    or(
        alloc,
        cmp(CCmp::Ne, num(0), num(0)),
        cmp(CCmp::Ne, num(0), num(0)),
    )
}

/// A literal, as a comparison of its local.
fn lit(l: &Locals, t: Lit) -> CCond
    ensures { result ≡ lit_cond (new_name l.now) t }
{
    match t {
        Lit::Bool(v) => cmp(CCmp::Ne, name(l.name(Name::B(v))), num(0)),
        Lit::Eq(v, x) => cmp(CCmp::Eq, name(l.name(Name::B(v))), num(x)),
    }
}

/// A term, as a Cond.
pub(crate) fn term(alloc: Global, l: &Locals, t: &Term) -> Result<CCond, AllocError>
    ensures { IfOk result (λ r. r ≡ term_cond (new_name l.now) t.now) }
{
    match t {
        Term::True => always(alloc),
        Term::False => never(alloc),
        Term::Lit(t) => Ok(lit(l, *t)),
        Term::Not(t) => cond_not(alloc, term(alloc, l, t.get())?),
        Term::And(t, u) => {
            let t = term(alloc, l, t.get())?;
            let u = term(alloc, l, u.get())?;
            and(alloc, t, u)
        }
        Term::Or(t, u) => {
            let t = term(alloc, l, t.get())?;
            let u = term(alloc, l, u.get())?;
            or(alloc, t, u)
        }
    }
}

/// What a name is set to, as a Word.
pub(crate) fn set_to(alloc: Global, l: &Locals, to: &SetTo) -> Result<CExpr, AllocError>
    ensures { IfOk result (λ r. r ≡ word_to (new_name l.now) to.now) }
{
    match to {
        SetTo::Expr(e) => word(alloc, l, e),
        SetTo::Cond(c) => word_if(alloc, cond(alloc, l, c)?),
        SetTo::Term(t) => word_if(alloc, term(alloc, l, t)?),
    }
}

/// A simple statement.
fn stmt(alloc: Global, l: &Locals, s: &Stmt) -> Result<CStmt, AllocError>
    ensures { IfOk result (λ r. r ≡ stmt_of (new_name l.now) s.now) }
{
    match s {
        Stmt::Set(n, e) => Ok(CStmt::Set(l.name(*n), word(alloc, l, e)?)),
        Stmt::Load(n, width, e) => Ok(CStmt::Load(l.name(*n), *width, word(alloc, l, e)?)),
        Stmt::Store(width, e, f) => {
            let e = word(alloc, l, e)?;
            let f = word(alloc, l, f)?;
            Ok(CStmt::Store(*width, e, f))
        }
        Stmt::Ext(e) => Ok(CStmt::Ext(word(alloc, l, e)?)),
        Stmt::Trap(vector, e) => Ok(CStmt::Trap(*vector, word(alloc, l, e)?)),
    }
}

/// A statement that is stuck.
fn stuck(alloc: Global) -> Result<CStmt, AllocError>
    ensures { IfOk result (λ s. s ≡ stuck_stmt) }
{
    Ok(CStmt::Trap(0, bin(alloc, CBin::Shl, num(0), num(32))?))
}

/// The statements of the end of a block. Blocks of a tree end in Go, Return or Leave; any other is stuck.
fn end(alloc: Global, l: &Locals, e: &End) -> Result<Items<CStmt>, AllocError>
    ensures { IfOk result (λ r. r ≡ end_stmts (new_name l.now) e.now) }
{
    let mut body = Items::new(alloc);
    match e {
        End::Go(_) => Ok(body),
        End::Branch(_, _, _) => {
            body.push(stuck(alloc)?)?;
            Ok(body)
        }
        End::Switch(_, _) => {
            body.push(stuck(alloc)?)?;
            Ok(body)
        }
        End::Return => {
            body.push(CStmt::Return)?;
            Ok(body)
        }
        End::Leave(e) => {
            body.push(CStmt::Ext(word(alloc, l, e)?))?;
            body.push(CStmt::Return)?;
            Ok(body)
        }
    }
}

/// The statements of a list.
fn stmts(alloc: Global, l: &Locals, all: &[Stmt]) -> Result<Items<CStmt>, AllocError>
    ensures { IfOk result (λ r. r ≡ map (stmt_of (new_name l.now)) all.now) }
{
    let mut body = Items::new(alloc);
    for s in all {
        body.push(stmt(alloc, l, s)?)?;
    }
    Ok(body)
}

/// The statements of a block and of its end.
pub(crate) fn block(alloc: Global, l: &Locals, b: &Block) -> Result<Items<CStmt>, AllocError>
    ensures { IfOk result (λ r. r ≡ block_stmts (new_name l.now) b.now) }
{
    let mut body = stmts(alloc, l, b.stmts.as_slice())?;
    body.append(end(alloc, l, &b.end)?)?;
    Ok(body)
}
