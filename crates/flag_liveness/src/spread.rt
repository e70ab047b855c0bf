//! What is live, spread from each block to those that come to it.

ghost use Rattle.std.specs.Prelude.{◌≡◌, ◌<◌, ◌≤◌, true, length, IfOk, OnOk, IsTrue};
ghost use Rattle.micro_ir.specs.Rule.{are_flow_blocks};
ghost use Rattle.flag_liveness.specs.Lives.{live_of};
ghost use Rattle.flag_liveness.specs.Settled.{unset_in};
ghost use Rattle.flag_liveness.specs.Reasons.{NodesInside, HaveReasons};

use crate::comers::comers;
use crate::live::Live;
use micro_ir::Block;
use std::alloc::{AllocError, Global};

/// Adds what is live: at each block, and then, as often as a row grows, at the blocks alone that come to its block.
pub(crate) fn spread(alloc: Global, blocks: &[Block], live: &mut Live) -> Result<(), AllocError>
    requires size { length live.old.rows.items ≡ length blocks.now }
    requires rule { IsTrue (are_flow_blocks blocks.now) }
    requires nodes { NodesInside blocks.now }
    requires reasons { HaveReasons blocks.now (live_of live.old) }
    ensures temps { live.new.temps ≡ live.old.temps }
    ensures size { length live.new.rows.items ≡ length blocks.now }
    ensures reasons { OnOk result (HaveReasons blocks.now (live_of live.new)) }
{
    let comers = comers(alloc, blocks)?;
    let mut waiting = numbers(alloc, blocks.len())?;
    'rounds: while grow_waiting(alloc, blocks, &comers, live, &mut waiting)? {}
    Ok(())
}

/// The numbers below a count, in order.
fn numbers(alloc: Global, count: usize) -> Result<Vec<usize>, AllocError>
    ensures { IfOk result (λ numbers. length numbers.items ≡ count) }
{
    let mut numbers = Vec::new(alloc);
    for k in 0..count {
        numbers.push(k)?;
    }
    Ok(numbers)
}

/// Adds to the rows of the blocks that wait what is live there, the last one first. Then those wait that come to a block
/// whose row grew. The answer is whether a row grew.
fn grow_waiting(
    alloc: Global,
    blocks: &[Block],
    comers: &[Vec<usize>],
    live: &mut Live,
    waiting: &mut Vec<usize>,
) -> Result<bool, AllocError>
    requires size { length live.old.rows.items ≡ length blocks.now }
    requires rule { IsTrue (are_flow_blocks blocks.now) }
    requires nodes { NodesInside blocks.now }
    requires reasons { HaveReasons blocks.now (live_of live.old) }
    requires comers { length comers.now ≡ length blocks.now }
    ensures temps { live.new.temps ≡ live.old.temps }
    ensures size { length live.new.rows.items ≡ length blocks.now }
    ensures less { OnOk result (unset_in live.new ≤ unset_in live.old) }
    ensures fewer { IfOk result (λ more. more ≡ true → unset_in live.new < unset_in live.old) }
    ensures reasons { OnOk result (HaveReasons blocks.now (live_of live.new)) }
{
    let mut more = false;
    let mut next = Vec::new(alloc);
    while let Some(k) = waiting.pop() {
        let grew = grow_one(alloc, blocks, comers, k, live, &mut next)?;
        more |= grew;
    }
    waiting.append(&mut next)?;
    Ok(more)
}

/// Adds to the row of a block what is live there. Where it grew, the blocks that come to it are next. The answer is
/// whether it grew.
fn grow_one(
    alloc: Global,
    blocks: &[Block],
    comers: &[Vec<usize>],
    k: usize,
    live: &mut Live,
    next: &mut Vec<usize>,
) -> Result<bool, AllocError>
    requires size { length live.old.rows.items ≡ length blocks.now }
    requires rule { IsTrue (are_flow_blocks blocks.now) }
    requires nodes { NodesInside blocks.now }
    requires reasons { HaveReasons blocks.now (live_of live.old) }
    requires comers { length comers.now ≡ length blocks.now }
    ensures temps { live.new.temps ≡ live.old.temps }
    ensures size { length live.new.rows.items ≡ length blocks.now }
    ensures less { OnOk result (unset_in live.new ≤ unset_in live.old) }
    ensures fewer { IfOk result (λ more. more ≡ true → unset_in live.new < unset_in live.old) }
    ensures reasons { OnOk result (HaveReasons blocks.now (live_of live.new)) }
{
    if k >= blocks.len() {
        return Ok(false);
    }
    if live.grow(alloc, &blocks[k], k)? {
        next.extend_from_slice(&comers[k])?;
        Ok(true)
    } else {
        Ok(false)
    }
}
