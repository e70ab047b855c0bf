//! Where the items of a region stand: in the arm of the only item that leads to them, or in a list of their dominator.

use crate::dominators::{Order, at, at_place, put};
use crate::region::Region;
use std::alloc::{AllocError, Global};

/// How deep lists may stand in lists before an item goes into the first list.
const DEEPEST: usize = 60;

/// The places of the items of a region.
#[derive(Drop)]
pub(crate) struct Places {
    /// An item stands in the arm of the one item that leads to it.
    pub(crate) in_arm: Vec<bool>,
    /// The items that stand in the list of an item, behind it, in order.
    pub(crate) joins: Vec<Vec<usize>>,
    /// No item that is led to from an item, through arms alone, stands outside of these arms.
    pub(crate) leaves: Vec<bool>,
}

pub(crate) fn places_of(
    alloc: Global,
    region: &Region,
    order: &Order,
) -> Result<Places, AllocError> {
    let count = region.items.len();
    let mut in_arm = vec![in alloc; false; count]?;
    let mut levels = vec![in alloc; 0_usize; count]?;
    let mut joins = Vec::new(alloc);
    for _item in 0..count {
        joins.push(Vec::new(alloc))?;
    }
    for &item in order.items.get(1..).unwrap_or(&[]) {
        let owner = at_place(&order.dominators, item);
        let level = at_place(&levels, owner).saturating_add(1);
        let deep = level > DEEPEST;
        put(&mut levels, item, if deep { 1 } else { level });
        if at(&order.comers, item) == 1 && !deep {
            mark(&mut in_arm, item);
        } else {
            note(&mut joins, if deep { 0 } else { owner }, item)?;
        }
    }
    let leaves = leaves_of(alloc, region, order, &in_arm)?;
    Ok(Places {
        in_arm,
        joins,
        leaves,
    })
}

fn note(joins: &mut [Vec<usize>], owner: usize, item: usize) -> Result<(), AllocError> {
    if let Some(list) = joins.get_mut(owner) {
        list.push(item)?;
    }
    Ok(())
}

fn mark(marks: &mut [bool], item: usize) {
    if let Some(place) = marks.get_mut(item) {
        *place = true;
    }
}

fn leaves_of(
    alloc: Global,
    region: &Region,
    order: &Order,
    in_arm: &[bool],
) -> Result<Vec<bool>, AllocError> {
    let mut leaves = vec![in alloc; false; region.items.len()]?;
    for &item in order.items.iter().rev() {
        let next = region.next_items(alloc, item)?;
        let all = next
            .iter()
            .all(|&n| is_marked(in_arm, n) && is_marked(&leaves, n));
        if all && !region.outs.get(item).map_or(false, |out| out.ends_turn()) {
            mark(&mut leaves, item);
        }
    }
    Ok(leaves)
}

pub(crate) fn is_marked(marks: &[bool], item: usize) -> bool {
    marks.get(item).copied().unwrap_or(false)
}
