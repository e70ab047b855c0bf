//! Which block follows a block in its stretch.

ghost use Rattle.std.specs.Prelude.{◌≡◌, ◌⊎◌, ◌<◌, ◌↔◌, ◌^◌, ℕ, IfOk, IsTrue, Some, length};
ghost use Rattle.graph_order.specs.Graph.{IsMarked};
ghost use Rattle.flow_stretches.specs.Joined.{IsFollowed};
ghost use Rattle.flow_stretches.specs.Known.{IsKnown, NextIn, comers_at};

use crate::comers::Comers;
use crate::ends::only_target;
use graph_order::NodeId;
use micro_ir::Block;
use std::alloc::{AllocError, Global};

/// The block that follows a block.
fn next_of(
    entry: NodeId,
    blocks: &[Block],
    reached: &[bool],
    comers: &[Comers],
    k: u32,
) -> Option<usize>
    requires known { IsKnown (record { entry = entry; blocks = blocks.now }) reached.now comers.now }
    requires inside { k < length blocks.now }
    ensures { (m : ℕ) → ((result ≡ Some m) ↔ IsFollowed (record { entry = entry; blocks = blocks.now }) k m) }
{
    if !reached[k as usize] {
        return None;
    }
    let target = only_target(&blocks[k as usize].end)?;
    if target.0 != entry.0 && is_only(comers, target.0 as usize, k) {
        Some(target.0 as usize)
    } else {
        None
    }
}

/// A node alone comes to another one.
fn is_only(comers: &[Comers], target: usize, k: u32) -> bool
    ensures { IsTrue result ↔ (comers_at comers.now target ≡ Comers.One k) }
{
    match comers.get(target) {
        Some(Comers::One(j)) => *j == k,
        _ => false,
    }
}

/// For each block in turn the block that follows it.
pub(crate) fn next_in(
    alloc: Global,
    entry: NodeId,
    blocks: &[Block],
    reached: &[bool],
    comers: &[Comers],
) -> Result<Vec<Option<usize>>, AllocError>
    requires few { length blocks.now < 2 ^ 30 }
    requires known { IsKnown (record { entry = entry; blocks = blocks.now }) reached.now comers.now }
    ensures count { IfOk result (λ next. length next.items ≡ length blocks.now) }
    ensures exact { IfOk result (λ next. (k m : ℕ) → (NextIn next.items k m ↔ IsFollowed (record { entry = entry; blocks = blocks.now }) k m)) }
{
    let mut next = Vec::new(alloc);
    for k in 0..blocks.len() as u32 {
        next.push(next_of(entry, blocks, reached, comers, k))?;
    }
    Ok(next)
}

/// For each node in turn whether it is reached and follows none.
pub(crate) fn firsts_in(next: &[Option<usize>], reached: Vec<bool>) -> Vec<bool>
    requires { (k m : ℕ) → NextIn next.now k m → m < length reached.items }
    ensures count { length result.items ≡ length reached.items }
    ensures reached { (n : ℕ) → IsMarked result.items n → IsMarked reached.items n }
    ensures first { (k n : ℕ) → IsMarked result.items n → NextIn next.now k n → ⊥ }
    ensures others { (n : ℕ) → IsMarked reached.items n → (IsMarked result.items n ⊎ ((k : ℕ) × NextIn next.now k n)) }
{
    let mut firsts = reached;
    for after in next {
        if let Some(m) = *after {
            firsts[m] = false;
        }
    }
    firsts
}
