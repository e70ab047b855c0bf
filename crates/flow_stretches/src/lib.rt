//! Stretches of blocks of a flow, joined.
//! Given are flows.
//! Promised is a flow with a block for each stretch, whose runs are those of the given one.
#![tactic(auto)]

mod comers;
mod ends;
mod following;
mod graph;
mod joining;
mod laws;
mod paths;
mod plan;
mod stretches;

pub use laws::{joined_is_given, joined_runs};
pub use stretches::join_stretches;
