//! The locals of a tree are gathered.

ghost use Rattle.std.specs.Prelude.{◌≡◌, OnOk, map};
ghost use Rattle.c_emit.specs.Gathered.{all_in, with_word, with_cond, with_lit, with_term, with_stmt, with_stmts, with_end, with_block, with_to, with_tree, with_case};

use crate::locals::Locals;
use c_syntax::{CCond, CExpr};
use cond_terms::{Lit, Term};
use dream_words::Name;
use guarded::{SetTo, Tree, TreeCase};
use micro_ir::{Block, End, Stmt};
use std::alloc::AllocError;

#[cycle(gather_word)]
fn word(l: &mut Locals, e: &CExpr) -> Result<(), AllocError>
    ensures { OnOk result (l.new ≡ with_word e.now l.old) }
{
    match e {
        CExpr::Num(_) => Ok(()),
        CExpr::Name(n) => l.add(*n),
        CExpr::Not(a) => word(l, a.get()),
        CExpr::Bin(_, a, b) => {
            word(l, a.get())?;
            word(l, b.get())
        }
        CExpr::Fn1(_, a) => word(l, a.get()),
        CExpr::Fn2(_, a, b) => {
            word(l, a.get())?;
            word(l, b.get())
        }
        CExpr::Fn3(_, a, b, c) => {
            word(l, a.get())?;
            word(l, b.get())?;
            word(l, c.get())
        }
        CExpr::Pick(t, a, b) => {
            cond(l, t.get())?;
            word(l, a.get())?;
            word(l, b.get())
        }
    }
}

#[cycle(gather_word)]
fn cond(l: &mut Locals, t: &CCond) -> Result<(), AllocError>
    ensures { OnOk result (l.new ≡ with_cond t.now l.old) }
{
    match t {
        CCond::Cmp(_, a, b) => {
            word(l, a)?;
            word(l, b)
        }
        CCond::Not(t) => cond(l, t.get()),
        CCond::And(t, u) => {
            cond(l, t.get())?;
            cond(l, u.get())
        }
        CCond::Or(t, u) => {
            cond(l, t.get())?;
            cond(l, u.get())
        }
    }
}

fn lit(l: &mut Locals, t: Lit) -> Result<(), AllocError>
    ensures { OnOk result (l.new ≡ with_lit t l.old) }
{
    match t {
        Lit::Bool(v) => l.add(Name::B(v)),
        Lit::Eq(v, _) => l.add(Name::B(v)),
    }
}

fn term(l: &mut Locals, t: &Term) -> Result<(), AllocError>
    ensures { OnOk result (l.new ≡ with_term t.now l.old) }
{
    match t {
        Term::True => Ok(()),
        Term::False => Ok(()),
        Term::Lit(t) => lit(l, *t),
        Term::Not(t) => term(l, t.get()),
        Term::And(t, u) => {
            term(l, t.get())?;
            term(l, u.get())
        }
        Term::Or(t, u) => {
            term(l, t.get())?;
            term(l, u.get())
        }
    }
}

fn stmt(l: &mut Locals, s: &Stmt) -> Result<(), AllocError>
    ensures { OnOk result (l.new ≡ with_stmt s.now l.old) }
{
    match s {
        Stmt::Set(n, e) => {
            word(l, e)?;
            l.add(*n)
        }
        Stmt::Load(n, _, e) => {
            word(l, e)?;
            l.add(*n)
        }
        Stmt::Store(_, e, f) => {
            word(l, e)?;
            word(l, f)
        }
        Stmt::Ext(e) => word(l, e),
        Stmt::Trap(_, e) => word(l, e),
    }
}

fn end(l: &mut Locals, e: &End) -> Result<(), AllocError>
    ensures { OnOk result (l.new ≡ with_end e.now l.old) }
{
    match e {
        End::Go(_) => Ok(()),
        End::Branch(_, _, _) => Ok(()),
        End::Switch(_, _) => Ok(()),
        End::Return => Ok(()),
        End::Leave(e) => word(l, e),
    }
}

fn stmts(l: &mut Locals, all: &[Stmt]) -> Result<(), AllocError>
    ensures { OnOk result (l.new ≡ with_stmts all.now l.old) }
{
    for s in all {
        stmt(l, s)?;
    }
    Ok(())
}

fn block(l: &mut Locals, b: &Block) -> Result<(), AllocError>
    ensures { OnOk result (l.new ≡ with_block b.now l.old) }
{
    stmts(l, b.stmts.as_slice())?;
    end(l, &b.end)
}

fn to(l: &mut Locals, to: &SetTo) -> Result<(), AllocError>
    ensures { OnOk result (l.new ≡ with_to to.now l.old) }
{
    match to {
        SetTo::Expr(e) => word(l, e),
        SetTo::Cond(c) => cond(l, c),
        SetTo::Term(t) => term(l, t),
    }
}

/// Takes in the locals of a tree.
#[cycle(gather_tree)]
pub(crate) fn tree(l: &mut Locals, t: &Tree) -> Result<(), AllocError>
    ensures { OnOk result (l.new ≡ with_tree t.now l.old) }
{
    match t {
        Tree::Block(b) => block(l, b),
        Tree::Seq(members) => all(l, members.as_slice()),
        Tree::If(t, a, b) => {
            term(l, t)?;
            tree(l, a.get())?;
            match b {
                None => Ok(()),
                Some(b) => tree(l, b.get()),
            }
        }
        Tree::Switch(n, cases, last) => {
            l.add(*n)?;
            in_cases(l, cases.as_slice())?;
            tree(l, last.get())
        }
        Tree::Loop(a) => tree(l, a.get()),
        Tree::While(t, a) => {
            term(l, t)?;
            tree(l, a.get())
        }
        Tree::DoWhile(a, t) => {
            tree(l, a.get())?;
            term(l, t)
        }
        Tree::Break => Ok(()),
        Tree::Set(n, set_to) => {
            to(l, set_to)?;
            l.add(*n)
        }
    }
}

#[cycle(gather_tree)]
fn all(l: &mut Locals, trees: &[Tree]) -> Result<(), AllocError>
    ensures { OnOk result (l.new ≡ all_in (map with_tree trees.now) l.old) }
{
    for t in trees {
        tree(l, t)?;
    }
    Ok(())
}

#[cycle(gather_tree)]
fn in_cases(l: &mut Locals, cases: &[TreeCase]) -> Result<(), AllocError>
    ensures { OnOk result (l.new ≡ all_in (map with_case cases.now) l.old) }
{
    for c in cases {
        tree(l, &c.body)?;
    }
    Ok(())
}
