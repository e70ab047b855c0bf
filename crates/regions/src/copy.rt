//! Blocks of a flow, copied into a tree.

ghost use Rattle.std.specs.Prelude.{◌≡◌, IfOk};
ghost use Rattle.regions.specs.Plain.{tree_end, block_tree};

use c_words::copy_word;
use graph_order::NodeId;
use guarded::Tree;
use micro_ir::{Block, End, Stmt};
use sqlite_items::Items;
use std::alloc::{AllocError, Global};

/// An equal statement.
fn copy_stmt(alloc: Global, s: &Stmt) -> Result<Stmt, AllocError>
    ensures { IfOk result (λ r. r ≡ s.now) }
{
    match s {
        Stmt::Set(n, e) => Ok(Stmt::Set(*n, copy_word(alloc, e)?)),
        Stmt::Load(n, width, e) => Ok(Stmt::Load(*n, *width, copy_word(alloc, e)?)),
        Stmt::Store(width, e, f) => {
            let e = copy_word(alloc, e)?;
            let f = copy_word(alloc, f)?;
            Ok(Stmt::Store(*width, e, f))
        }
        Stmt::Ext(e) => Ok(Stmt::Ext(copy_word(alloc, e)?)),
        Stmt::Trap(vector, e) => Ok(Stmt::Trap(*vector, copy_word(alloc, e)?)),
    }
}

/// Equal statements.
fn copy_stmts(alloc: Global, all: &[Stmt]) -> Result<Items<Stmt>, AllocError>
    ensures { IfOk result (λ r. r ≡ all.now) }
{
    let mut copies = Items::new(alloc);
    for s in all {
        copies.push(copy_stmt(alloc, s)?)?;
    }
    Ok(copies)
}

/// The end of a block in a tree. It goes on, returns or leaves.
fn copy_end(alloc: Global, e: &End) -> Result<End, AllocError>
    ensures { IfOk result (λ r. r ≡ tree_end e.now) }
{
    match e {
        End::Go(a) => Ok(End::Go(*a)),
        End::Branch(_, a, _) => Ok(End::Go(*a)),
        End::Switch(_, _) => Ok(End::Go(NodeId(0))),
        End::Return => Ok(End::Return),
        End::Leave(e) => Ok(End::Leave(copy_word(alloc, e)?)),
    }
}

/// A block in a tree.
pub fn tree_block(alloc: Global, b: &Block) -> Result<Tree, AllocError>
    ensures { IfOk result (λ t. t ≡ block_tree b.now) }
{
    let stmts = copy_stmts(alloc, b.stmts.as_slice())?;
    let end = copy_end(alloc, &b.end)?;
    Ok(Tree::Block(Block {
        at: b.at,
        stmts,
        end,
    }))
}
