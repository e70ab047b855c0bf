//! Trees of flows: structuring.
//! Given is a flow that keeps the rule of flows.
//! Promised is a well-formed tree that follows it.
#![tactic(auto)]

mod copy;
mod laws;
mod one_line;
mod one_loop;
mod trees;

pub use copy::tree_block;
pub use laws::{following_agrees, straight_is_exact};
pub use trees::{plain, straight};
