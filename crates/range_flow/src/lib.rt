//! From what is discovered of a range to its flow: its blocks are those of the instructions that are reached.
//! Given are an image, a range of addresses in it, and the places that discovery finds there.
//! Promised is the flow of the range, and, as a law on the definitions, that it agrees with the machine.
#![tactic(auto)]

mod assembly;
mod discovered;
mod first_nodes;
mod laws;
mod lifted;
mod nodes;
mod outside;
mod places;

pub use discovered::flow_of;
pub use laws::{discovered_cover, flow_counts, flow_is_given, flows_agree, planned_flows_agree};
