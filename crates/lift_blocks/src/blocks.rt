//! Blocks by their statements and their ends.

ghost use Rattle.std.specs.Prelude.{◌≡◌, []};
ghost use Rattle.lift_blocks.specs.Ends.{goes_on as goes_on_of, branches as branches_of, returns as returns_of};

use graph_order::NodeId;
use micro_ir::{Block, Cond, End, Stmt};
use sqlite_items::Items;
use std::alloc::Global;

/// Statements, and then on to the first successor.
pub fn goes_on(at: u32, stmts: Vec<Stmt>) -> Block
    ensures { result ≡ goes_on_of at stmts.items }
{
    Block {
        at,
        stmts: Items::from_vec(stmts),
        end: End::Go(NodeId(1)),
    }
}

/// Statements, and then to the target where the condition is true, else on.
pub fn branches(at: u32, stmts: Vec<Stmt>, t: Cond) -> Block
    ensures { result ≡ branches_of at stmts.items t }
{
    Block {
        at,
        stmts: Items::from_vec(stmts),
        end: End::Branch(t, NodeId(1), NodeId(2)),
    }
}

/// Statements, and then a return.
pub fn returns(at: u32, stmts: Vec<Stmt>) -> Block
    ensures { result ≡ returns_of at stmts.items }
{
    Block {
        at,
        stmts: Items::from_vec(stmts),
        end: End::Return,
    }
}

/// A block without statements, which returns.
pub fn nothing(alloc: Global, at: u32) -> Block
    ensures { result ≡ returns_of at [] }
{
    returns(at, Vec::new(alloc))
}
