//! A function of C with conditions in the place of the locals that hold their outcomes, and without locals that nothing reads.

ghost use Rattle.std.specs.Prelude.{IfOk};
ghost use Rattle.c_syntax.specs.Formed.{IsWellFormed};
ghost use Rattle.dream_engine.specs.Settled.{IsSettledOf};

use c_conds::with_conds;
use c_locals::without_unread;
use c_syntax::CFun;
use std::alloc::{AllocError, Global};

/// The function with each condition in the test that reads its outcome, and without the locals that nothing reads then.
pub(crate) fn settled(alloc: Global, f: CFun) -> Result<CFun, AllocError>
    requires { IsWellFormed f }
    ensures { IfOk result (IsSettledOf f) }
{
    let placed = with_conds(alloc, f)?;
    let short = without_unread(alloc, placed)?;
    Ok(short)
}
