//! How the blocks of a flow may stand in nested lists of statements, as a plan.
//! Given is a flow.
//! Promised is nothing of the plan: the check of plans tells whether it follows the flow.
#![tactic(auto)]

mod dominators;
mod lists;
mod outs;
mod places;
mod planning;
mod region;

pub use planning::{Layout, layout_of};
