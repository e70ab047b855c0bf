//! Trees of statements that are guarded by terms: what structuring makes of a flow.
//! It is given blocks of the flow, words, conditions and terms.
//! It promises what a tree means: its runs, which only continue in more turns, and its counts.
#![tactic(auto)]

mod laws;
mod tree;

pub use laws::{more_turns_continue, parts_are_runs, trees_mean_so};
pub use tree::{SetTo, Tree, TreeCase};
