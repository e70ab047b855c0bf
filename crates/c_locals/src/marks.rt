//! Which locals are kept: those that are read, and those that are loaded.

ghost use Rattle.std.specs.Prelude.{◌≡◌, slice_set, true, map};
ghost use Rattle.c_locals.specs.Marks.{with_name, with_word, with_cond, all_in, with_stmt, with_arm, with_group};

use c_syntax::{CArm, CCond, CExpr, CGroup, CStmt};
use dream_words::Name;
use std::marker::Model;

/// For each local for words, and for each one for the outcome of a test, whether it is kept.
#[derive(Drop)]
pub(crate) struct Marks {
    pub(crate) temps: Vec<bool>,
    pub(crate) bools: Vec<bool>,
}

impl Model for Marks {
    ghost use Rattle.c_locals.specs.Marks.{Marks as Kept};

    ghost Value = { Kept };

    ghost view = { λ m. record { temps = m.temps.items; bools = m.bools.items } };
}

/// Marks a number. One that isn't declared has no mark.
fn mark(marks: &mut [bool], number: u32)
    ensures { marks.new ≡ slice_set marks.old number true }
{
    let place = number as usize;
    if place < marks.len() {
        marks[place] = true;
    }
}

impl Marks {
    /// Marks a name, if it is a local for words or for the outcome of a test.
    fn name(&mut self, n: Name)
        ensures { self.new ≡ with_name n self.old }
    {
        match n {
            Name::Reg(_) => {}
            Name::Flag(_) => {}
            Name::Fs => {}
            Name::Gs => {}
            Name::T(n) => mark(&mut self.temps, n),
            Name::B(n) => mark(&mut self.bools, n),
            Name::S(_) => {}
        }
    }
}

#[cycle(mark_word)]
fn word(m: &mut Marks, e: &CExpr)
    ensures { m.new ≡ with_word e.now m.old }
{
    match e {
        CExpr::Num(_) => {}
        CExpr::Name(n) => m.name(*n),
        CExpr::Not(a) => word(m, a.get()),
        CExpr::Bin(_, a, b) => {
            word(m, a.get());
            word(m, b.get());
        }
        CExpr::Fn1(_, a) => word(m, a.get()),
        CExpr::Fn2(_, a, b) => {
            word(m, a.get());
            word(m, b.get());
        }
        CExpr::Fn3(_, a, b, c) => {
            word(m, a.get());
            word(m, b.get());
            word(m, c.get());
        }
        CExpr::Pick(t, a, b) => {
            cond(m, t.get());
            word(m, a.get());
            word(m, b.get());
        }
    }
}

#[cycle(mark_word)]
fn cond(m: &mut Marks, t: &CCond)
    ensures { m.new ≡ with_cond t.now m.old }
{
    match t {
        CCond::Cmp(_, a, b) => {
            word(m, a);
            word(m, b);
        }
        CCond::Not(t) => cond(m, t.get()),
        CCond::And(t, u) => {
            cond(m, t.get());
            cond(m, u.get());
        }
        CCond::Or(t, u) => {
            cond(m, t.get());
            cond(m, u.get());
        }
    }
}

/// Marks what a statement reads or loads.
#[cycle(mark_stmt)]
fn stmt(m: &mut Marks, s: &CStmt)
    ensures { m.new ≡ with_stmt s.now m.old }
{
    match s {
        CStmt::Set(_, e) => word(m, e),
        CStmt::Load(n, _, e) => {
            word(m, e);
            m.name(*n);
        }
        CStmt::Store(_, e, v) => {
            word(m, e);
            word(m, v);
        }
        CStmt::Ext(e) => word(m, e),
        CStmt::Trap(_, e) => word(m, e),
        CStmt::If(arms, rest) => {
            in_arms(m, arms.as_slice());
            match rest {
                None => {}
                Some(body) => stmts(m, body.as_slice()),
            }
        }
        CStmt::Switch(e, groups, rest) => {
            word(m, e);
            in_groups(m, groups.as_slice());
            stmts(m, rest.as_slice());
        }
        CStmt::Loop(body) => stmts(m, body.as_slice()),
        CStmt::While(t, body) => {
            cond(m, t);
            stmts(m, body.as_slice());
        }
        CStmt::DoWhile(body, t) => {
            stmts(m, body.as_slice());
            cond(m, t);
        }
        CStmt::Break => {}
        CStmt::Return => {}
    }
}

/// Marks what statements read or load.
#[cycle(mark_stmt)]
pub(crate) fn stmts(m: &mut Marks, body: &[CStmt])
    ensures { m.new ≡ all_in (map with_stmt body.now) m.old }
{
    for s in body {
        stmt(m, s);
    }
}

#[cycle(mark_stmt)]
fn in_arms(m: &mut Marks, arms: &[CArm])
    ensures { m.new ≡ all_in (map with_arm arms.now) m.old }
{
    for a in arms {
        cond(m, &a.test);
        stmts(m, a.body.as_slice());
    }
}

#[cycle(mark_stmt)]
fn in_groups(m: &mut Marks, groups: &[CGroup])
    ensures { m.new ≡ all_in (map with_group groups.now) m.old }
{
    for g in groups {
        stmts(m, g.body.as_slice());
    }
}
