//! How many calls and stores statements have.

ghost use Rattle.std.specs.Prelude.{◌≡◌, IfOk, map};
ghost use Rattle.guarded.specs.Counts.{c_stmt_count, c_arm_count, c_group_count, c_count, total};
ghost use Rattle.drill_lines.specs.Statements.{at_most, weights_of};

use c_syntax::{CArm, CGroup, CStmt};
use std::alloc::AllocError;

/// Which statements are counted.
#[derive(Clone, Copy)]
pub(crate) enum Counted {
    /// The calls of functions that aren't printed.
    Calls,
    /// The stores.
    Stores,
}

impl Counted {
    // What a call counts.
    fn call(self) -> u64
        ensures { result ≡ (weights_of self).ext }
    {
        match self {
            Counted::Calls => 1,
            Counted::Stores => 0,
        }
    }

    // What a store counts.
    fn store(self) -> u64
        ensures { result ≡ (weights_of self).store }
    {
        match self {
            Counted::Calls => 0,
            Counted::Stores => 1,
        }
    }
}

/// How many a statement has. 2^64 - 1 stands for that many and more.
#[cycle(statements)]
fn count_stmt(kind: Counted, s: &CStmt) -> u64
    ensures { result ≡ at_most (c_stmt_count (weights_of kind) s.now) }
{
    match s {
        CStmt::Ext(_) => kind.call(),
        CStmt::Store(_, _, _) => kind.store(),
        CStmt::If(arms, None) => count_arms(kind, arms.as_slice()),
        CStmt::If(arms, Some(last)) => {
            count_arms(kind, arms.as_slice()).saturating_add(count_all(kind, last.as_slice()))
        }
        CStmt::Switch(_, groups, last) => {
            count_groups(kind, groups.as_slice()).saturating_add(count_all(kind, last.as_slice()))
        }
        CStmt::Loop(body) => count_all(kind, body.as_slice()),
        CStmt::While(_, body) => count_all(kind, body.as_slice()),
        CStmt::DoWhile(body, _) => count_all(kind, body.as_slice()),
        CStmt::Set(_, _) | CStmt::Load(_, _, _) | CStmt::Trap(_, _) => 0,
        CStmt::Break | CStmt::Return => 0,
    }
}

/// How many statements have in all.
#[cycle(statements)]
fn count_all(kind: Counted, stmts: &[CStmt]) -> u64
    ensures { result ≡ at_most (total (map (c_stmt_count (weights_of kind)) stmts.now)) }
{
    let mut count: u64 = 0;
    for s in stmts {
        count = count.saturating_add(count_stmt(kind, s));
    }
    count
}

/// How many the bodies of arms have.
#[cycle(statements)]
fn count_arms(kind: Counted, arms: &[CArm]) -> u64
    ensures { result ≡ at_most (total (map (c_arm_count (weights_of kind)) arms.now)) }
{
    let mut count: u64 = 0;
    for arm in arms {
        count = count.saturating_add(count_all(kind, arm.body.as_slice()));
    }
    count
}

/// How many the bodies of groups have.
#[cycle(statements)]
fn count_groups(kind: Counted, groups: &[CGroup]) -> u64
    ensures { result ≡ at_most (total (map (c_group_count (weights_of kind)) groups.now)) }
{
    let mut count: u64 = 0;
    for group in groups {
        count = count.saturating_add(count_all(kind, group.body.as_slice()));
    }
    count
}

/// How many statements have in all. As many as 2^64 - 1 are want of memory.
#[tactic(auto, using(crate::proofs::Weighed::count_all_is))]
pub(crate) fn count(kind: Counted, stmts: &[CStmt]) -> Result<u64, AllocError>
    ensures { IfOk result (λ n. n ≡ c_count (weights_of kind) stmts.now) }
{
    let n = count_all(kind, stmts);
    if n < u64::MAX { Ok(n) } else { Err(AllocError) }
}
