//! Regions without cycles: the flow with each of its components as one item, or the inside of a component.

use graph_order::NodeId;
use std::alloc::{AllocError, Global};

/// What stands in a region.
#[derive(Clone, Copy)]
pub(crate) enum Item {
    /// A block of the flow.
    Block(NodeId),
    /// A component, by its number.
    Loop(usize),
    /// The beginning of a turn of a component with several heads.
    Turn,
}

/// Where an edge of an item leads.
#[derive(Clone, Copy)]
pub(crate) enum Target {
    /// To an item of the region; of a component with several heads, to that head.
    Inner(usize, Option<u32>),
    /// To a head of the component: the turn ends.
    Head(u32),
    /// Out of the component.
    Exit(u32),
}

/// Some values, and where they lead.
#[derive(Drop)]
pub(crate) struct Group {
    pub(crate) values: Vec<u32>,
    pub(crate) target: Target,
}

/// How an item goes on.
#[derive(Drop)]
pub(crate) enum Out {
    /// It returns or leaves.
    Stops,
    Go(Target),
    /// By a condition.
    Branch(Target, Target),
    /// By a word, which is put into a variable.
    Switch(Vec<Group>),
    /// By the selector of a component.
    Select(usize, Vec<Group>),
}

impl Out {
    /// Whether more than one of its edges leads to an item.
    pub(crate) fn leads_twice(&self, item: usize) -> bool {
        match self {
            Out::Stops | Out::Go(_) => false,
            Out::Branch(a, b) => leads_to(*a, item) && leads_to(*b, item),
            Out::Switch(groups) | Out::Select(_, groups) => {
                let mut found = false;
                for group in groups {
                    if leads_to(group.target, item) {
                        if found {
                            return true;
                        }
                        found = true;
                    }
                }
                false
            }
        }
    }

    /// Adds the items to which it leads.
    pub(crate) fn add_items(&self, items: &mut Vec<usize>) -> Result<(), AllocError> {
        match self {
            Out::Stops => Ok(()),
            Out::Go(a) => add_item(items, *a),
            Out::Branch(a, b) => {
                add_item(items, *a)?;
                add_item(items, *b)
            }
            Out::Switch(groups) | Out::Select(_, groups) => {
                for group in groups {
                    add_item(items, group.target)?;
                }
                Ok(())
            }
        }
    }
}

/// Whether an edge leads to an item.
fn leads_to(target: Target, item: usize) -> bool {
    match target {
        Target::Inner(k, _) => k == item,
        Target::Head(_) | Target::Exit(_) => false,
    }
}

fn add_item(items: &mut Vec<usize>, target: Target) -> Result<(), AllocError> {
    match target {
        Target::Inner(item, _) => {
            if !items.contains(&item) {
                items.push(item)?;
            }
            Ok(())
        }
        Target::Head(_) | Target::Exit(_) => Ok(()),
    }
}

/// Items that lead to one another without a cycle. The first one is entered first.
#[derive(Drop)]
pub(crate) struct Region {
    pub(crate) items: Vec<Item>,
    pub(crate) outs: Vec<Out>,
}

impl Region {
    pub(crate) fn new(alloc: Global) -> Region {
        Region {
            items: Vec::new(alloc),
            outs: Vec::new(alloc),
        }
    }

    /// Whether an item leads to another one by more than one edge.
    pub(crate) fn leads_twice(&self, item: usize, next: usize) -> bool {
        match self.outs.get(item) {
            None => false,
            Some(out) => out.leads_twice(next),
        }
    }

    /// The items to which an item leads, each once.
    pub(crate) fn next_items(&self, alloc: Global, item: usize) -> Result<Vec<usize>, AllocError> {
        let mut items = Vec::new(alloc);
        if let Some(out) = self.outs.get(item) {
            out.add_items(&mut items)?;
        }
        Ok(items)
    }
}
