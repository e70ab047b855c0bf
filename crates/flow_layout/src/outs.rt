//! How blocks and components go on in a region.

use crate::region::{Group, Out, Target};
use graph_order::NodeId;
use micro_ir::{Case, End};
use std::alloc::{AllocError, Global};

impl Out {
    /// Whether some way of it ends a turn.
    pub(crate) fn ends_turn(&self) -> bool {
        match self {
            Out::Stops => false,
            Out::Go(a) => is_head(*a),
            Out::Branch(a, b) => is_head(*a) || is_head(*b),
            Out::Switch(groups) | Out::Select(_, groups) => groups
                .iter()
                .any(|g| is_head(g.target)),
        }
    }
}

fn is_head(target: Target) -> bool {
    matches!(target, Target::Head(_))
}

/// Where the nodes of a flow lead in a region.
#[derive(Drop)]
pub(crate) struct Leads<'a> {
    /// For each node its item, and its number as a head where its component has several.
    pub(crate) targets: &'a [Option<Target>],
}

impl<'a> Leads<'a> {
    fn target(&self, n: NodeId) -> Option<Target> {
        self.targets.get(n.0 as usize).copied().unwrap_or(None)
    }

    /// How a block goes on; none where a node isn't known.
    pub(crate) fn out_of(&self, alloc: Global, end: &End) -> Result<Option<Out>, AllocError> {
        match end {
            End::Go(a) => match self.target(*a) {
                Some(a) => Ok(Some(Out::Go(a))),
                None => Ok(None),
            },
            End::Branch(_, a, b) => match (self.target(*a), self.target(*b)) {
                (Some(a), Some(b)) => Ok(Some(Out::Branch(a, b))),
                _ => Ok(None),
            },
            End::Switch(_, cases) => self.switch(alloc, cases.as_slice()),
            End::Return | End::Leave(_) => Ok(Some(Out::Stops)),
        }
    }

    fn switch(&self, alloc: Global, cases: &[Case]) -> Result<Option<Out>, AllocError> {
        let mut groups: Vec<Group> = Vec::new(alloc);
        let mut nodes: Vec<NodeId> = Vec::new(alloc);
        for case in cases {
            let found = nodes.iter().position(|n| n.0 == case.to.0);
            match found {
                Some(k) => {
                    if let Some(group) = groups.get_mut(k) {
                        group.values.push(case.value)?;
                    }
                }
                None => match self.target(case.to) {
                    Some(target) => {
                        nodes.push(case.to)?;
                        let values = Vec::from_array(alloc, [case.value])?;
                        groups.push(Group { values, target })?;
                    }
                    None => return Ok(None),
                },
            }
        }
        largest_last(&mut groups);
        Ok(Some(Out::Switch(groups)))
    }
}

/// Puts the group with the most values at the end.
fn largest_last(groups: &mut Vec<Group>) {
    let mut largest = 0;
    let mut at = 0;
    for (k, group) in groups.iter().enumerate() {
        if group.values.len() > largest {
            largest = group.values.len();
            at = k;
        }
    }
    if let Some(last) = groups.len().checked_sub(1) {
        if at < last {
            groups.swap(at, last);
        }
    }
}
