//! Loads of a word that a register is set to.

ghost use Rattle.std.specs.Prelude.{◌≡◌, ◌+◌, IsTrue, IfSome};
ghost use Rattle.c_syntax.specs.declared.syntax.CExpr.{CExpr-F, roll-CExpr};
ghost use Rattle.micro_ir.specs.Rule.{is_flow_target};
ghost use Rattle.flow_passes.specs.Uses.{stmt_reads, stmt_sets};
ghost use Rattle.flag_liveness.specs.Before.{live_at};
ghost use Rattle.flag_liveness.specs.Lives.{live_of};
ghost use Rattle.expr_fold.specs.Follows.{IsLost};

use dream_words::Name;
use flag_liveness::Live;
use flow_passes::{is_flag, is_register, same_name, word_reads};
use micro_ir::{End, Expr, Stmt};

/// How many statements are looked at for a read of a name.
const FAR: u32 = 2000;

/// How many statements are looked at for the set of a register to a name that was loaded.
const NEAR: usize = 8;

/// Whether a statement reads a name.
pub(crate) fn stmt_reads(s: &Stmt, n: Name) -> bool
    ensures { result ≡ stmt_reads s.now n }
{
    match s {
        Stmt::Set(_, e) => word_reads(e, n),
        Stmt::Load(_, _, e) => word_reads(e, n),
        Stmt::Store(_, e, f) => word_reads(e, n) || word_reads(f, n),
        Stmt::Ext(e) => is_register(n) || word_reads(e, n),
        Stmt::Trap(_, e) => word_reads(e, n),
    }
}

/// Whether a statement sets a name.
fn stmt_sets(s: &Stmt, n: Name) -> bool
    ensures { result ≡ stmt_sets s.now n }
{
    match s {
        Stmt::Set(m, _) => same_name(*m, n),
        Stmt::Load(m, _, _) => same_name(*m, n),
        Stmt::Store(_, _, _) => false,
        Stmt::Ext(_) => is_register(n) || is_flag(n),
        Stmt::Trap(_, _) => false,
    }
}

/// Whether a name isn't seen again in statements and at their end. False where that isn't found out.
fn is_lost(live: &Live, stmts: &[Stmt], end: &End, t: Name) -> bool
    ensures { IsTrue result → IsLost (live_at end.now (live_of live.now)) stmts.now t }
{
    let mut left = FAR;
    for s in stmts {
        if left == 0 {
            return false;
        }
        left -= 1;
        if stmt_reads(s, t) {
            return false;
        }
        if stmt_sets(s, t) {
            return true;
        }
    }
    !live.is_live_at(end, t)
}

/// Whether a Word is just a name.
pub(crate) fn is_name(e: &Expr, t: Name) -> bool
    ensures { IsTrue result → e.now ≡ roll-CExpr (CExpr-F.Name t) }
{
    match e {
        Expr::Name(n) => *n == t,
        _ => false,
    }
}

/// The register that one of the next statements sets to a name.
fn register_set_to(stmts: &[Stmt], t: Name) -> Option<Name> {
    for s in stmts.iter().take(NEAR) {
        if let Stmt::Set(r, e) = s
            && is_name(e, t)
        {
            return if is_register(*r) { Some(*r) } else { None };
        }
        if stmt_sets(s, t) {
            return None;
        }
    }
    None
}

/// Whether a flow has a register.
fn is_flow_register(r: Name) -> bool
    ensures { IsTrue result → IsTrue (is_flow_target r) }
{
    match r {
        Name::Reg(k) => k < 8,
        _ => false,
    }
}

/// The register into which a load of a temporary is taken, given the statements after it: one that is set to the temporary next,
/// and isn't seen before.
pub(crate) fn loaded_into(live: &Live, stmts: &[Stmt], end: &End, t: Name) -> Option<Name>
    ensures target { IfSome result (λ r. IsTrue (is_flow_target r)) }
    ensures lost { IfSome result (λ r. IsLost (live_at end.now (live_of live.now)) stmts.now r) }
{
    if is_register(t) {
        return None;
    }
    let r = register_set_to(stmts, t)?;
    if is_flow_register(r) && is_lost(live, stmts, end, r) {
        Some(r)
    } else {
        None
    }
}
