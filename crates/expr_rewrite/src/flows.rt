//! A flow with rewritten Words.

ghost use Rattle.std.specs.Prelude.{IfOk};
ghost use Rattle.micro_ir.specs.Rule.{IsGiven};
ghost use Rattle.flow_passes.specs.Keeps.{Keeps};

use crate::blocks::blocks;
use micro_ir::Flow;
use std::alloc::{AllocError, Global};

/// A flow with each Word and Cond rewritten, where that nests at most 64 deep.
pub fn rewrite_flow(alloc: Global, f: Flow) -> Result<Flow, AllocError>
    requires { IsGiven f }
    ensures given { IfOk result (λ g. IsGiven g) }
    ensures keeps { IfOk result (λ g. Keeps f g) }
{
    let rewritten = blocks(alloc, f.blocks.as_slice())?;
    Ok(Flow {
        entry: f.entry,
        blocks: rewritten,
    })
}
