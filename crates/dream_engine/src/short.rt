//! The flow of a range, made short: what its tree is made of.

ghost use Rattle.std.specs.Prelude.{IfOk};
ghost use Rattle.dream_engine.specs.Short.{IsShortOf};
ghost use Rattle.flow_passes.specs.Keeps.{Keeps};
ghost use Rattle.micro_ir.specs.Rule.{IsGiven};

use expr_fold::fold;
use expr_rewrite::rewrite_flow;
use flag_liveness::clean;
use flow_stretches::join_stretches;
use micro_ir::Flow;
use std::alloc::{AllocError, Global};

/// The flow with words in place, and these rewritten, and then without what nothing sees.
fn folded(alloc: Global, f: Flow) -> Result<Flow, AllocError>
    requires given { IsGiven f }
    ensures given { IfOk result IsGiven }
    ensures keeps { IfOk result (Keeps f) }
{
    let in_place = fold(alloc, f)?;
    let rewritten = rewrite_flow(alloc, in_place)?;
    let short = clean(alloc, rewritten)?;
    Ok(short)
}

/// The flow with its blocks joined, with words in place that read better, and without what nothing sees.
pub fn shortened(alloc: Global, f: Flow) -> Result<Flow, AllocError>
    requires given { IsGiven f }
    ensures { IfOk result (IsShortOf f) }
{
    let joined = join_stretches(alloc, f)?;
    let short = folded(alloc, joined)?;
    Ok(short)
}
