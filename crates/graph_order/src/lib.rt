//! Directed graphs: what the entry reaches, the order of the reached nodes along their edges, their components, and the
//! loops, which are the components with their heads and their exit targets.
//! It is given the entry and, for each node in turn, its successors; it rests on no other crate.
//! It promises exact answers, each in time linear in nodes and edges but for the sorting of exit targets.
#![tactic(auto)]

mod arrivals;
mod bare;
mod classes;
mod ends;
mod finding;
mod finish;
mod graph;
mod groups;
mod laws;
mod lists;
mod order;
mod owners;
mod parts;
mod visits;

pub use finding::loops;
pub use graph::{Graph, GraphFault, NodeId};
pub use groups::components;
pub use laws::{
    components_are_apart, cycles_have_no_order, each_cycle_holds_a_head, the_entry_stands_first,
};
pub use order::{OrderFault, topo_order};
pub use parts::{Loops, Part};
pub use visits::reach;
