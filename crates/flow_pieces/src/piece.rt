//! The pieces of a flow, as plain data.

use micro_ir::Block;
use sqlite_items::Items;

/// The blocks of what stands at an address, and the addresses that it leads to.
///
/// The blocks name their own from 0 on, and after them the successors.
#[derive(Drop)]
pub struct FlowPiece {
    pub at: u32,
    pub blocks: Items<Block>,
    pub successors: Items<u32>,
}
