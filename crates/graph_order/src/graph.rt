//! Graphs.

ghost use Rattle.std.specs.Prelude.{◌≡◌, ℕ, ◌^◌, ◌<◌, ◌↔◌, nat_le, All, Some, None, find, length, map, IfOk, OnOk, slice_index_or, []};

use std::alloc::Global;
use std::marker::Model;

/// A node of a graph, by its number.
#[derive(Clone, Copy, Debug, PartialEq, Eq)]
pub struct NodeId(pub u32);

impl Model for NodeId {
    ghost use Rattle.std.specs.Prelude.{ℕ};

    ghost Value = { ℕ };

    ghost view = { λ n. n.0 };

    ghost inverse = { λ n. record { 0 = n } };
}

/// A directed graph with an entry.
///
/// Its nodes are the numbers below the count, which is below 2^30.
#[derive(Drop)]
pub struct Graph {
    entry: NodeId,
    succ: Vec<Vec<NodeId>>,
}

impl Model for Graph {
    ghost use Rattle.std.specs.Prelude.{map};
    ghost use Rattle.graph_order.specs.Graph.{Digraph, IsGraph};

    ghost Value = { Digraph };

    ghost view = { λ g. record { entry = g.entry; succ = map (λ l. l.items) g.succ.items } };

    ghost invariant = { λ g. IsGraph (record { entry = g.entry; succ = map (λ l. l.items) g.succ.items }) };
}

/// Why lists of nodes make no graph.
#[derive(Clone, Copy, Debug, PartialEq, Eq)]
pub enum GraphFault {
    /// A named node isn't below the count.
    BadNode(NodeId),
    /// Memory was refused.
    Memory,
}

impl Graph {
    ghost use Rattle.graph_order.specs.Graph.{first_outside};

    /// The graph of an entry and of the successors of each node in turn, which it keeps as they
    /// come.
    ///
    /// `BadNode` has the first named node, in reading order from the entry on, that isn't below the
    /// count.
    pub fn new(_alloc: Global, entry: NodeId, succ: Vec<Vec<NodeId>>) -> Result<Graph, GraphFault>
        requires { length succ.items < 2 ^ 30 }
        ensures ok { IfOk result (λ g. g ≡ record { entry = entry; succ = map (λ l. l.items) succ.items }) }
        ensures inside { OnOk result (first_outside entry (map (λ l. l.items) succ.items) ≡ None) }
        ensures bad { (n : ℕ) → (result ≡ Err (GraphFault.BadNode n)) ↔ (first_outside entry (map (λ l. l.items) succ.items) ≡ Some n) }
    {
        let count = succ.len();
        if entry.0 as usize >= count {
            return Err(GraphFault::BadNode(entry));
        }
        for list in &succ {
            if let Some(node) = first_past(list, count) {
                return Err(GraphFault::BadNode(node));
            }
        }
        Ok(Graph { entry, succ })
    }

    /// The entry.
    pub fn entry(&self) -> NodeId
        ensures value { result ≡ self.now.entry }
        ensures inside { result < length self.now.succ }
    {
        self.entry
    }

    /// How many nodes there are.
    pub fn count(&self) -> u32
        ensures value { result ≡ length self.now.succ }
        ensures few { result < 2 ^ 30 }
    {
        self.succ.len() as u32
    }

    /// The successors of a node.
    pub fn succ(&self, n: NodeId) -> &[NodeId]
        requires { n < length self.now.succ }
        ensures value { result.now ≡ slice_index_or self.now.succ n [] }
        ensures inside { All (λ k. k < length self.now.succ) result.now }
    {
        &self.succ[n.0 as usize]
    }
}

/// The first of some nodes that isn't below a count.
fn first_past(nodes: &[NodeId], count: usize) -> Option<NodeId>
    ensures { result ≡ find (λ n. nat_le count n) nodes.now }
{
    nodes.iter().copied().find(|n| n.0 as usize >= count)
}
