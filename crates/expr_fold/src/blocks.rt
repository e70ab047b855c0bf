//! Blocks with words in place.

ghost use Rattle.std.specs.Prelude.{◌≡◌, ◌<◌, ℕ, [], length, true, IsTrue, IfOk, IfSome};
ghost use Rattle.micro_ir.specs.Rule.{is_flow_block, are_flow_blocks};
ghost use Rattle.flow_passes.specs.Uses.{NameSet};
ghost use Rattle.flag_liveness.specs.Before.{live_at};
ghost use Rattle.flag_liveness.specs.Lives.{live_of};
ghost use Rattle.expr_fold.specs.Placed.{placed_end};
ghost use Rattle.expr_fold.specs.Follows.{FollowsFirst};
ghost use Rattle.expr_fold.specs.Ends.{end_fits, none_seen_after};
ghost use Rattle.expr_fold.specs.Folds.{LivesAt, LivesIn, FoldsBlock, FoldsBlocks};
ghost use Rattle.expr_fold.specs.Adds.{AddsFolded, Advances};

use crate::delayed::Delayed;
use crate::folding::{DEPTH, Folding};
use crate::{ends, fits, loads, placed, policy};
use flag_liveness::Live;
use micro_ir::{Block, End, Stmt};
use sqlite_items::Items;
use std::alloc::{AllocError, Global};

/// Takes the statement at a place. The answer is the next place; None where it can't be taken.
fn take_one(
    folding: &mut Folding,
    alloc: Global,
    stmts: &[Stmt],
    at: usize,
) -> Result<Option<usize>, AllocError>
    requires { at < length stmts.now }
    ensures { IfOk result (λ o. IfSome o (λ j. (last : NameSet) → Advances last stmts.now at j folding.old folding.new)) }
{
    if policy::step(folding, alloc, &stmts[at], &stmts[at + 1..])? {
        Ok(Some(at + 1))
    } else {
        Ok(None)
    }
}

/// Takes the statement at a place, a load into the register that is set to its name next. The answer is the next place; None
/// where it can't be taken.
fn take_next(
    folding: &mut Folding,
    alloc: Global,
    live: &Live,
    stmts: &[Stmt],
    end: &End,
    at: usize,
) -> Result<Option<usize>, AllocError>
    requires { at < length stmts.now }
    ensures { IfOk result (λ o. IfSome o (λ j. Advances (live_at end.now (live_of live.now)) stmts.now at j folding.old folding.new)) }
{
    if let Stmt::Load(t, width, e) = &stmts[at]
        && let Some(r) = loads::loaded_into(live, &stmts[at + 1..], end, *t)
    {
        if policy::step_into(folding, alloc, *t, *width, e, r)? {
            return Ok(Some(at + 1));
        }
        return Ok(None);
    }
    take_one(folding, alloc, stmts, at)
}

/// The statements of a block. None where they can't be taken.
fn statements(
    alloc: Global,
    live: &Live,
    stmts: &[Stmt],
    end: &End,
) -> Result<Option<Folding>, AllocError>
    ensures { IfOk result (λ o. IfSome o (λ g. FollowsFirst (live_at end.now (live_of live.now)) stmts.now (length stmts.now) g.done g.delayed.items)) }
{
    let mut folding = Folding::new(alloc);
    let mut at = 0;
    while at < stmts.len() {
        let Some(next) = take_next(&mut folding, alloc, live, stmts, end, at)? else {
            return Ok(None);
        };
        at = next;
    }
    Ok(Some(folding))
}

/// An end with delayed words in place.
pub(crate) fn placed_end(alloc: Global, delayed: &[Delayed], e: &End) -> Result<End, AllocError>
    ensures { IfOk result (λ r. r ≡ placed_end delayed.now e.now) }
{
    match e {
        End::Go(a) => Ok(End::Go(*a)),
        End::Branch(t, a, b) => Ok(End::Branch(placed::cond(alloc, delayed, t)?, *a, *b)),
        End::Switch(e, cases) => {
            let e = placed::word(alloc, delayed, e)?;
            let cases = Items::from_slice(alloc, cases.as_slice())?;
            Ok(End::Switch(e, cases))
        }
        End::Return => Ok(End::Return),
        End::Leave(e) => Ok(End::Leave(placed::word(alloc, delayed, e)?)),
    }
}

/// The words of an end aren't too deep.
pub(crate) fn end_fits(e: &End) -> bool
    ensures { result ≡ end_fits e.now }
{
    match e {
        End::Go(_) => true,
        End::Branch(t, _, _) => fits::cond_fits(t, DEPTH),
        End::Switch(e, _) => fits::word_fits(e, DEPTH),
        End::Return => true,
        End::Leave(e) => fits::word_fits(e, DEPTH),
    }
}

/// The statements of a block, with what may be seen after its end. None where they can't be taken.
fn closed(alloc: Global, live: &Live, b: &Block) -> Result<Option<Folding>, AllocError>
    ensures { IfOk result (λ o. IfSome o (λ g. FollowsFirst (live_at b.now.end (live_of live.now)) b.now.stmts (length b.now.stmts) g.done g.delayed.items)) }
{
    let Some(folding) = statements(alloc, live, b.stmts.as_slice(), &b.end)? else {
        return Ok(None);
    };
    let mut folding = folding;
    policy::close(&mut folding, alloc, live, &b.end)?;
    Ok(Some(folding))
}

/// An end with delayed words in place. None where its words are too deep, or what is delayed may be seen after it.
fn ended(
    alloc: Global,
    live: &Live,
    delayed: &[Delayed],
    e: &End,
) -> Result<Option<End>, AllocError>
    ensures placed { IfOk result (λ o. IfSome o (λ r. r ≡ placed_end delayed.now e.now)) }
    ensures fits { IfOk result (λ o. IfSome o (λ r. IsTrue (end_fits r))) }
    ensures unseen { IfOk result (λ o. IfSome o (λ r. IsTrue (none_seen_after e.now (live_of live.now) delayed.now))) }
{
    if !ends::none_seen_after(live, e, delayed) {
        return Ok(None);
    }
    let end = placed_end(alloc, delayed, e)?;
    if !end_fits(&end) {
        return Ok(None);
    }
    Ok(Some(end))
}

/// A block with words in place. None where that can't be.
fn block(alloc: Global, live: &Live, b: &Block) -> Result<Option<Block>, AllocError>
    requires { IsTrue (is_flow_block b.now) }
    ensures { IfOk result (λ o. IfSome o (λ c. (k : ℕ) → LivesAt (live_of live.now) k b.now → FoldsBlock (live_of live.now) k b.now c)) }
{
    let Some(folding) = closed(alloc, live, b)? else {
        return Ok(None);
    };
    let Some(end) = ended(alloc, live, &folding.delayed, &b.end)? else {
        return Ok(None);
    };
    Ok(Some(Block {
        at: b.at,
        stmts: folding.done,
        end,
    }))
}

/// Adds a block with words in place. False where that can't be.
fn add_block(
    alloc: Global,
    live: &Live,
    b: &Block,
    made: &mut Items<Block>,
) -> Result<bool, AllocError>
    requires { IsTrue (is_flow_block b.now) }
    ensures { IfOk result (λ is. IsTrue is → AddsFolded (live_of live.now) b.now made.old made.new) }
{
    let Some(c) = block(alloc, live, b)? else {
        return Ok(false);
    };
    made.push(c)?;
    Ok(true)
}

/// Blocks with words in place. None where that can't be.
pub(crate) fn blocks(
    alloc: Global,
    live: &Live,
    all: &[Block],
) -> Result<Option<Items<Block>>, AllocError>
    requires rule { IsTrue (are_flow_blocks all.now) }
    requires lives { LivesIn (live_of live.now) all.now }
    ensures { IfOk result (λ o. IfSome o (λ cs. FoldsBlocks (live_of live.now) 0 all.now cs)) }
{
    let mut made = Items::new(alloc);
    for b in all {
        if !add_block(alloc, live, b, &mut made)? {
            return Ok(None);
        }
    }
    Ok(Some(made))
}
