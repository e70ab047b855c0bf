//! A flow with words in place.

ghost use Rattle.std.specs.Prelude.{IfOk};
ghost use Rattle.micro_ir.specs.Rule.{IsGiven};
ghost use Rattle.flow_passes.specs.Keeps.{Keeps};
ghost use Rattle.expr_fold.specs.Direct.{NoneStandsDirectlyBefore};

use crate::blocks::blocks;
use crate::moves::moved;
use flag_liveness::{clean_by, liveness};
use micro_ir::Flow;
use std::alloc::{AllocError, Global};

/// A flow in which words stand in the place of names that were set to them, as far as delayed sets bring them.
fn folded(alloc: Global, f: Flow) -> Result<Flow, AllocError>
    requires { IsGiven f }
    ensures given { IfOk result (λ g. IsGiven g) }
    ensures keeps { IfOk result (λ g. Keeps f g) }
{
    let live = liveness(alloc, &f)?;
    let f = clean_by(alloc, f, &live)?;
    match blocks(alloc, &live, f.blocks.as_slice())? {
        None => Ok(f),
        Some(folded) => Ok(Flow {
            entry: f.entry,
            blocks: folded,
        }),
    }
}

/// A flow in which words stand in the place of names that were set to them. No set of a temporary stands directly before its
/// only read in the flow, but where the word would nest too deep there.
pub fn fold(alloc: Global, f: Flow) -> Result<Flow, AllocError>
    requires { IsGiven f }
    ensures given { IfOk result (λ g. IsGiven g) }
    ensures keeps { IfOk result (λ g. Keeps f g) }
    ensures direct { IfOk result (λ g. NoneStandsDirectlyBefore g) }
{
    let folded = folded(alloc, f)?;
    let made = moved(alloc, folded)?;
    Ok(made)
}
