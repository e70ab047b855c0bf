//! Components with their heads and their exit targets.

use crate::graph::NodeId;

/// A component with its heads and its exit targets, each once and ascending.
#[derive(Drop)]
pub struct Part {
    /// The nodes of the component.
    pub members: Vec<NodeId>,
    /// The members where it is entered from outside; where a cycle of it holds none of these, the members with two
    /// different reached predecessors too.
    pub heads: Vec<NodeId>,
    /// The nodes outside to which an edge leads from a member.
    pub exits: Vec<NodeId>,
}

/// The components of a graph, by their least members, with their heads and their exit targets.
#[derive(Drop)]
pub struct Loops {
    /// The components.
    pub parts: Vec<Part>,
}
