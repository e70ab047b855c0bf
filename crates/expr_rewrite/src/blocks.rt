//! Blocks with rewritten Words.

ghost use Rattle.std.specs.Prelude.{IfOk};
ghost use Rattle.expr_rewrite.specs.Pairs.{Pairs};
ghost use Rattle.expr_rewrite.specs.Rewritten.{StandsForBlock};

use crate::statements::{end, stmts};
use micro_ir::Block;
use sqlite_items::Items;
use std::alloc::{AllocError, Global};

/// A block with rewritten Words.
fn block(alloc: Global, b: &Block) -> Result<Block, AllocError>
    ensures { IfOk result (StandsForBlock b.now) }
{
    let stmts = stmts(alloc, b.stmts.as_slice())?;
    let end = end(alloc, &b.end)?;
    Ok(Block {
        at: b.at,
        stmts,
        end,
    })
}

/// Blocks with rewritten Words.
pub(crate) fn blocks(alloc: Global, all: &[Block]) -> Result<Items<Block>, AllocError>
    ensures { IfOk result (Pairs StandsForBlock all.now) }
{
    let mut made = Items::new(alloc);
    for b in all {
        made.push(block(alloc, b)?)?;
    }
    Ok(made)
}
