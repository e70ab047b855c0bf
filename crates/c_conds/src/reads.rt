//! How often a function reads each local for the outcome of a test elsewhere than in the test that stands directly after the local is
//! set to the outcome of a condition.

use c_syntax::{CArm, CCond, CExpr, CGroup, CStmt};
use dream_words::Name;

/// Counts a read of a local. One that isn't declared has no count.
fn count(reads: &mut [u32], number: u32) {
    let place = number as usize;
    if place < reads.len() {
        reads[place] = reads[place].saturating_add(1);
    }
}

/// Counts a read of a name, if it is a local for the outcome of a test.
fn name(reads: &mut [u32], n: Name) {
    match n {
        Name::Reg(_) => {}
        Name::Flag(_) => {}
        Name::Fs => {}
        Name::Gs => {}
        Name::T(_) => {}
        Name::B(k) => count(reads, k),
        Name::S(_) => {}
    }
}

/// Counts what a Word reads.
#[cycle(count_word)]
fn word(reads: &mut [u32], e: &CExpr) {
    match e {
        CExpr::Num(_) => {}
        CExpr::Name(n) => name(reads, *n),
        CExpr::Not(a) => word(reads, a.get()),
        CExpr::Bin(_, a, b) => {
            word(reads, a.get());
            word(reads, b.get());
        }
        CExpr::Fn1(_, a) => word(reads, a.get()),
        CExpr::Fn2(_, a, b) => {
            word(reads, a.get());
            word(reads, b.get());
        }
        CExpr::Fn3(_, a, b, c) => {
            word(reads, a.get());
            word(reads, b.get());
            word(reads, c.get());
        }
        CExpr::Pick(t, a, b) => {
            cond(reads, t.get());
            word(reads, a.get());
            word(reads, b.get());
        }
    }
}

/// Counts what a Cond reads.
#[cycle(count_word)]
fn cond(reads: &mut [u32], t: &CCond) {
    match t {
        CCond::Cmp(_, a, b) => {
            word(reads, a);
            word(reads, b);
        }
        CCond::Not(t) => cond(reads, t.get()),
        CCond::And(t, u) => {
            cond(reads, t.get());
            cond(reads, u.get());
        }
        CCond::Or(t, u) => {
            cond(reads, t.get());
            cond(reads, u.get());
        }
    }
}

/// The local that a statement sets to the outcome of a condition.
fn set_by(s: &CStmt) -> Option<u32> {
    match s {
        CStmt::Set(Name::B(k), CExpr::Pick(_, _, _)) => Some(*k),
        _ => None,
    }
}

/// Counts what a test reads, but for the local that was set directly before it.
fn test(reads: &mut [u32], set: Option<u32>, t: &CCond) {
    let Some(k) = set else {
        cond(reads, t);
        return;
    };
    let place = k as usize;
    if place < reads.len() {
        let before = reads[place];
        cond(reads, t);
        if place < reads.len() {
            reads[place] = before;
        }
    }
}

/// Counts what a statement reads, after one that set a local.
#[cycle(count_stmt)]
fn stmt(reads: &mut [u32], set: Option<u32>, s: &CStmt) {
    match s {
        CStmt::Set(_, e) => word(reads, e),
        CStmt::Load(_, _, e) => word(reads, e),
        CStmt::Store(_, e, v) => {
            word(reads, e);
            word(reads, v);
        }
        CStmt::Ext(e) => word(reads, e),
        CStmt::Trap(_, e) => word(reads, e),
        CStmt::If(arms, last) => {
            in_arms(reads, set, arms.as_slice());
            match last {
                None => {}
                Some(body) => {
                    let _set = stmts(reads, body.as_slice());
                }
            }
        }
        CStmt::Switch(e, groups, last) => {
            word(reads, e);
            in_groups(reads, groups.as_slice());
            let _set = stmts(reads, last.as_slice());
        }
        CStmt::Loop(body) => {
            let _set = stmts(reads, body.as_slice());
        }
        CStmt::While(t, body) => {
            cond(reads, t);
            let _set = stmts(reads, body.as_slice());
        }
        CStmt::DoWhile(body, t) => {
            let set = stmts(reads, body.as_slice());
            test(reads, set, t);
        }
        CStmt::Break => {}
        CStmt::Return => {}
    }
}

/// Counts what statements read. The answer is the local that the last one sets to the outcome of a condition.
#[cycle(count_stmt)]
pub(crate) fn stmts(reads: &mut [u32], body: &[CStmt]) -> Option<u32> {
    let mut set = None;
    for s in body {
        stmt(reads, set, s);
        set = set_by(s);
    }
    set
}

/// Counts what the arms of an `if` read, after a statement that set a local.
#[cycle(count_stmt)]
fn in_arms(reads: &mut [u32], set: Option<u32>, arms: &[CArm]) {
    for a in arms {
        test(reads, set, &a.test);
        let _set = stmts(reads, a.body.as_slice());
    }
}

/// Counts what the groups of a `switch` read.
#[cycle(count_stmt)]
fn in_groups(reads: &mut [u32], groups: &[CGroup]) {
    for g in groups {
        let _set = stmts(reads, g.body.as_slice());
    }
}
