//! Guards of the nodes of a graph without cycles.

use crate::term::Term;
use graph_order::NodeId;
use sqlite_items::Items;

/// An edge that is taken where its term is true.
#[derive(Drop)]
pub struct Edge {
    pub from: NodeId,
    pub to: NodeId,
    pub term: Term,
}

/// Edges.
#[derive(Drop)]
pub struct Edges {
    pub list: Items<Edge>,
}

/// The guard of a node.
#[derive(Drop)]
pub enum Guard {
    /// A term of at most 64 literals.
    Term(Term),
    /// The variable that stands for the term in later guards, and the term.
    Named(u32, Term),
}
