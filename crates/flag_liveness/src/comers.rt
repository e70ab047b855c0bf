//! From which blocks a block is come to.

ghost use Rattle.std.specs.Prelude.{◌≡◌, length, IfOk};

use graph_order::NodeId;
use micro_ir::{Block, Case, End};
use std::alloc::{AllocError, Global};

/// For each block the numbers of those whose ends name it, each as often as it does.
pub(crate) fn comers(alloc: Global, blocks: &[Block]) -> Result<Vec<Vec<usize>>, AllocError>
    ensures { IfOk result (λ comers. length comers.items ≡ length blocks.now) }
{
    let mut comers = nobody(alloc, blocks.len())?;
    for k in 0..blocks.len() {
        note_end(&blocks[k].end, k, &mut comers)?;
    }
    Ok(comers)
}

/// So many blocks to which nobody comes.
fn nobody(alloc: Global, count: usize) -> Result<Vec<Vec<usize>>, AllocError>
    ensures { IfOk result (λ comers. length comers.items ≡ count) }
{
    let mut comers = Vec::new(alloc);
    for _ in 0..count {
        comers.push(Vec::new(alloc))?;
    }
    Ok(comers)
}

/// Notes that a block comes to the nodes of its end.
fn note_end(e: &End, k: usize, comers: &mut [Vec<usize>]) -> Result<(), AllocError>
    ensures { length comers.new ≡ length comers.old }
{
    match e {
        End::Go(a) => {
            note(*a, k, comers)?;
            Ok(())
        }
        End::Branch(_, a, b) => {
            note(*a, k, comers)?;
            note(*b, k, comers)?;
            Ok(())
        }
        End::Switch(_, cases) => {
            note_cases(cases.as_slice(), k, comers)?;
            Ok(())
        }
        End::Return | End::Leave(_) => Ok(()),
    }
}

/// Notes that a block comes to the nodes of cases.
fn note_cases(cases: &[Case], k: usize, comers: &mut [Vec<usize>]) -> Result<(), AllocError>
    ensures { length comers.new ≡ length comers.old }
{
    for c in cases {
        note(c.to, k, comers)?;
    }
    Ok(())
}

/// Notes that a block comes to a node, if there is that node.
fn note(to: NodeId, k: usize, comers: &mut [Vec<usize>]) -> Result<(), AllocError>
    ensures { length comers.new ≡ length comers.old }
{
    let place = to.0 as usize;
    if place < comers.len() {
        comers[place].push(k)?;
    }
    Ok(())
}
