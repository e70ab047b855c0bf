//! How often names are read: what the choice rests on which words to put in place. No promise depends on it.

use c_syntax::{CCond, CExpr};
use dream_words::Name;
use flow_passes::{is_flag, is_register, same_name};
use micro_ir::Stmt;

/// How many statements are looked at.
const NEAR: u32 = 200;

/// How many parts a Word has.
#[cycle(size)]
pub(crate) fn word_size(e: &CExpr) -> u32 {
    match e {
        CExpr::Num(_) => 1,
        CExpr::Name(_) => 1,
        CExpr::Not(a) => word_size(a.get()).saturating_add(1),
        CExpr::Bin(_, a, b) => word_size(a.get()).saturating_add(word_size(b.get())),
        CExpr::Fn1(_, a) => word_size(a.get()).saturating_add(1),
        CExpr::Fn2(_, a, b) => word_size(a.get()).saturating_add(word_size(b.get())),
        CExpr::Fn3(_, a, b, c) => {
            let first = word_size(a.get()).saturating_add(word_size(b.get()));
            first.saturating_add(word_size(c.get()))
        }
        CExpr::Pick(t, a, b) => {
            let first = cond_size(t.get()).saturating_add(word_size(a.get()));
            first.saturating_add(word_size(b.get()))
        }
    }
}

/// How many parts a Cond has.
#[cycle(size)]
pub(crate) fn cond_size(t: &CCond) -> u32 {
    match t {
        CCond::Cmp(_, a, b) => word_size(a).saturating_add(word_size(b)),
        CCond::Not(t) => cond_size(t.get()).saturating_add(1),
        CCond::And(t, u) => cond_size(t.get()).saturating_add(cond_size(u.get())),
        CCond::Or(t, u) => cond_size(t.get()).saturating_add(cond_size(u.get())),
    }
}

/// How often a name stands in a Word.
#[cycle(count)]
pub(crate) fn word_count(e: &CExpr, n: Name) -> u32 {
    match e {
        CExpr::Num(_) => 0,
        CExpr::Name(m) => { if same_name(*m, n) { 1 } else { 0 } }
        CExpr::Not(a) => word_count(a.get(), n),
        CExpr::Bin(_, a, b) => word_count(a.get(), n).saturating_add(word_count(b.get(), n)),
        CExpr::Fn1(_, a) => word_count(a.get(), n),
        CExpr::Fn2(_, a, b) => word_count(a.get(), n).saturating_add(word_count(b.get(), n)),
        CExpr::Fn3(_, a, b, c) => {
            let first = word_count(a.get(), n).saturating_add(word_count(b.get(), n));
            first.saturating_add(word_count(c.get(), n))
        }
        CExpr::Pick(t, a, b) => {
            let first = cond_count(t.get(), n).saturating_add(word_count(a.get(), n));
            first.saturating_add(word_count(b.get(), n))
        }
    }
}

/// How often a name stands in a Cond.
#[cycle(count)]
pub(crate) fn cond_count(t: &CCond, n: Name) -> u32 {
    match t {
        CCond::Cmp(_, a, b) => word_count(a, n).saturating_add(word_count(b, n)),
        CCond::Not(t) => cond_count(t.get(), n),
        CCond::And(t, u) => cond_count(t.get(), n).saturating_add(cond_count(u.get(), n)),
        CCond::Or(t, u) => cond_count(t.get(), n).saturating_add(cond_count(u.get(), n)),
    }
}

/// How often a statement reads a name.
fn stmt_count(s: &Stmt, n: Name) -> u32 {
    match s {
        Stmt::Set(_, e) => word_count(e, n),
        Stmt::Load(_, _, e) => word_count(e, n),
        Stmt::Store(_, e, f) => word_count(e, n).saturating_add(word_count(f, n)),
        Stmt::Ext(e) => word_count(e, n),
        Stmt::Trap(_, e) => word_count(e, n),
    }
}

/// A statement sets a name.
fn sets(s: &Stmt, n: Name) -> bool {
    match s {
        Stmt::Set(m, _) => same_name(*m, n),
        Stmt::Load(m, _, _) => same_name(*m, n),
        Stmt::Store(_, _, _) => false,
        Stmt::Ext(_) => is_register(n) || is_flag(n),
        Stmt::Trap(_, _) => false,
    }
}

/// How often the next statements read a name, before one of them sets it.
pub(crate) fn reads_ahead(stmts: &[Stmt], n: Name) -> u32 {
    let mut left = NEAR;
    let mut reads: u32 = 0;
    for s in stmts {
        reads = reads.saturating_add(stmt_count(s, n));
        if left == 0 || reads > 1 || sets(s, n) {
            return reads;
        }
        left -= 1;
    }
    reads
}
