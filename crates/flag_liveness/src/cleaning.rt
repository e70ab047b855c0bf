//! A flow without what nobody sees.

ghost use Rattle.std.specs.Prelude.{◌≡◌, ◌++◌, ◌∷◌, [], IfOk, OnOk, IsTrue, map, if◌then◌else◌};
ghost use Rattle.std.specs.Ordering.{nat_cmp};
ghost use Rattle.std.specs.BTreeSet as set;
ghost use Rattle.micro_ir.specs.Rule.{IsGiven, KeepsRule, are_flow_stmts, is_flow_block, are_flow_blocks};
ghost use Rattle.flow_passes.specs.Uses.{NameSet};
ghost use Rattle.flow_passes.specs.Keeps.{Keeps};
ghost use Rattle.flag_liveness.specs.Before.{is_unseen, live_before};
ghost use Rattle.flag_liveness.specs.Within.{names_within, Agree};
ghost use Rattle.flag_liveness.specs.Lives.{live_of};
ghost use Rattle.flag_liveness.specs.Clean.{cleaned, cleaned_block, cleaned_flow};
ghost use Rattle.flag_liveness.specs.Read.{FlagsAreRead};

use crate::live::Live;
use crate::seen::Seen;
use crate::settle::live_by_reasons;
use micro_ir::{Block, Flow, Stmt};
use sqlite_items::Items;
use std::alloc::{AllocError, Global};
use std::collections::BTreeSet;

/// The flow without what nobody sees: a Set of a name that isn't live afterwards, or of a name to itself.
pub fn clean(alloc: Global, f: Flow) -> Result<Flow, AllocError>
    requires { IsGiven f }
    ensures given { IfOk result (λ r. IsGiven r) }
    ensures keeps { IfOk result (λ r. Keeps f r) }
    ensures read { IfOk result (λ r. FlagsAreRead r) }
{
    let live = live_by_reasons(alloc, &f)?;
    let made = clean_by(alloc, f, &live)?;
    Ok(made)
}

/// The flow without what nobody sees, by sets of live names.
pub fn clean_by(alloc: Global, f: Flow, live: &Live) -> Result<Flow, AllocError>
    requires { KeepsRule f }
    ensures { IfOk result (λ r. r ≡ cleaned_flow (live_of live.now) f) }
{
    let Flow { entry, blocks } = f;
    let blocks = clean_blocks(alloc, blocks, live)?;
    Ok(Flow { entry, blocks })
}

/// Blocks without what nobody sees.
fn clean_blocks(
    alloc: Global,
    blocks: Items<Block>,
    live: &Live,
) -> Result<Items<Block>, AllocError>
    requires { IsTrue (are_flow_blocks blocks) }
    ensures { IfOk result (λ r. r ≡ map (cleaned_block (live_of live.now)) blocks) }
{
    let mut rest = blocks;
    let mut made = Vec::new(alloc);
    while let Some(b) = rest.pop() {
        made.push(clean_block(alloc, b, live)?)?;
    }
    made.reverse();
    Ok(Items::from_vec(made))
}

/// A block without what nobody sees.
fn clean_block(alloc: Global, b: Block, live: &Live) -> Result<Block, AllocError>
    requires { IsTrue (is_flow_block b) }
    ensures { IfOk result (λ r. r ≡ cleaned_block (live_of live.now) b) }
{
    let Block { at, stmts, end } = b;
    let seen = live.at_end(alloc, &end)?;
    let stmts = clean_stmts(alloc, stmts, seen, &live.temps)?;
    Ok(Block { at, stmts, end })
}

/// The statements that somebody sees, given what is live after them.
fn clean_stmts(
    alloc: Global,
    stmts: Items<Stmt>,
    seen: Seen,
    across: &BTreeSet<u32>,
) -> Result<Items<Stmt>, AllocError>
    requires { IsTrue (are_flow_stmts stmts) }
    ensures { IfOk result (λ r. (after : NameSet) → Agree (names_within (set.contains nat_cmp across.now) seen) after → r ≡ cleaned stmts after) }
{
    let mut seen = seen;
    let mut rest = stmts;
    let mut kept = Vec::new(alloc);
    while let Some(s) = rest.pop() {
        keep_seen(s, &mut seen, across, &mut kept)?;
    }
    kept.reverse();
    Ok(Items::from_vec(kept))
}

/// Goes back over a statement, and keeps it where somebody sees it.
fn keep_seen(
    s: Stmt,
    seen: &mut Seen,
    across: &BTreeSet<u32>,
    kept: &mut Vec<Stmt>,
) -> Result<(), AllocError>
    ensures kept { OnOk result (kept.new.items ≡ (if is_unseen s (names_within (set.contains nat_cmp across.now) seen.old) then kept.old.items else kept.old.items ++ s ∷ [])) }
    ensures names { OnOk result (Agree (names_within (set.contains nat_cmp across.now) seen.new) (live_before s (names_within (set.contains nat_cmp across.now) seen.old))) }
{
    if seen.pass(&s, across)? {
        drop(s);
        Ok(())
    } else {
        kept.push(s)?;
        Ok(())
    }
}
