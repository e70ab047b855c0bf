//! A local that statements don't set.

ghost use Rattle.std.specs.Prelude.{◌≡◌, ◌^◌, ◌<◌, false, IfOk};
ghost use Rattle.std.specs.List.{list_any};
ghost use Rattle.window_blocks.specs.Locals.{is_local as is_local_of, sets as sets_of};

use dream_words::Name;
use micro_ir::Stmt;
use std::alloc::AllocError;

// How many locals a flow may have.
const LOCALS: u32 = 0x8000_0000;

// Whether a name is the local of a number.
fn is_local(n: Name, k: u32) -> bool
    ensures { result ≡ is_local_of k n }
{
    match n {
        Name::T(j) => j == k,
        Name::Reg(_) => false,
        Name::Flag(_) => false,
        Name::Fs => false,
        Name::Gs => false,
        Name::B(_) => false,
        Name::S(_) => false,
    }
}

// Whether a statement sets it.
fn sets(s: &Stmt, k: u32) -> bool
    ensures { result ≡ sets_of k s.now }
{
    match s {
        Stmt::Set(n, _) => is_local(*n, k),
        Stmt::Load(n, _, _) => is_local(*n, k),
        Stmt::Store(_, _, _) => false,
        Stmt::Ext(_) => false,
        Stmt::Trap(_, _) => false,
    }
}

// Whether one of some statements does.
fn is_set(stmts: &[Stmt], k: u32) -> bool
    ensures { result ≡ list_any (sets_of k) stmts.now }
{
    stmts.iter().any(|s| sets(s, k))
}

/// The first local that no statement sets. Statements that set all of them are want of memory.
pub fn unset(stmts: &[Stmt]) -> Result<u32, AllocError>
    ensures local { IfOk result (λ k. k < 2 ^ 31) }
    ensures unset { IfOk result (λ k. list_any (sets_of k) stmts.now ≡ false) }
{
    for k in 0..LOCALS {
        if !is_set(stmts, k) {
            return Ok(k);
        }
    }
    Err(AllocError)
}
