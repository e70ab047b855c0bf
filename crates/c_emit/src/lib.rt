//! A tree written as a function of the C profile.
//! It is given a tree and the address of its function.
//! It promises the function that says the same: with the same runs, counts and names, well formed where the tree is,
//! and without a loose pair where the tree has none.
#![tactic(auto)]

mod gather;
mod laws;
mod locals;
mod trees;
mod words;

pub use laws::{
    emit_adds_no_loose_pair, emit_declares_just_these, emit_is_well_formed, emit_keeps_counts,
    emit_keeps_names, emit_keeps_runs,
};
pub use trees::emit;
