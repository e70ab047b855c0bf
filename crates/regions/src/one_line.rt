//! A flow that is one line of blocks.

ghost use Rattle.std.specs.Prelude.{◌≡◌, ◌++◌, length, slice_get, IfOk, OnOk};
ghost use Rattle.regions.specs.Straight.{way_of, way_at, trees_at, line, straight_tree};

use crate::copy;
use graph_order::NodeId;
use guarded::Tree;
use micro_ir::{Block, End, Flow};
use sqlite_items::Items;
use std::alloc::{AllocError, Global};

/// Where a line goes on after a block: at another block, nowhere, since the run is over, or it splits.
#[derive(Clone, Copy)]
enum Way {
    On(NodeId),
    Over,
    Splits,
}

/// Where a line goes on after an end.
fn way_of(e: &End) -> Way
    ensures { result ≡ way_of e.now }
{
    match e {
        End::Go(a) => Way::On(*a),
        End::Branch(_, a, b) => { if a.0 == b.0 { Way::On(*a) } else { Way::Splits } }
        End::Switch(_, _) => Way::Splits,
        End::Return => Way::Over,
        End::Leave(_) => Way::Over,
    }
}

/// Adds the block of a number. The answer is its way.
fn add_block(
    alloc: Global,
    blocks: &[Block],
    n: NodeId,
    trees: &mut Items<Tree>,
) -> Result<Way, AllocError>
    ensures way { IfOk result (λ w. w ≡ way_at (slice_get blocks.now n)) }
    ensures tree { OnOk result (trees.new ≡ trees.old ++ trees_at (slice_get blocks.now n)) }
{
    match blocks.get(n.0 as usize) {
        None => Ok(Way::Splits),
        Some(b) => {
            trees.push(copy::tree_block(alloc, b)?)?;
            Ok(way_of(&b.end))
        }
    }
}

/// The blocks from one on, if they are a line.
fn line(alloc: Global, blocks: &[Block], entry: NodeId) -> Result<Option<Items<Tree>>, AllocError>
    ensures { IfOk result (λ o. o ≡ line blocks.now (length blocks.now) entry) }
{
    let mut trees = Items::new(alloc);
    let mut node = entry;
    for _count in 0..blocks.len() {
        match add_block(alloc, blocks, node, &mut trees)? {
            Way::On(next) => node = next,
            Way::Over => return Ok(Some(trees)),
            Way::Splits => return Ok(None),
        }
    }
    Ok(None)
}

/// The trees of the line one after another.
pub(crate) fn tree(alloc: Global, f: &Flow) -> Result<Option<Tree>, AllocError>
    ensures { IfOk result (λ o. o ≡ straight_tree f.now) }
{
    match line(alloc, f.blocks.as_slice(), f.entry)? {
        None => Ok(None),
        Some(trees) => Ok(Some(Tree::Seq(trees))),
    }
}
