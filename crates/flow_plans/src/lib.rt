//! Plans of structured texts.
//! It is given a flow and a plan: how the flow's blocks stand in a text, with branches, loops and flags.
//! It promises that a plan which its check lets through gives a tree that follows the flow.
#![tactic(auto)]

mod check;
mod emit;
mod entries;
mod fit;
mod known;
mod laws;
mod plan;
mod test_trees;
mod tree;

pub use check::checked;
pub use emit::emitted;
pub use laws::{plans_follow, plans_form, plans_turn};
pub use plan::{Entry, Plan, Value, Way};
pub use tree::structured;
