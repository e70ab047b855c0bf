//! What runs are made of: the world in which a run stands, what simple statements do to it, and the
//! parts of a program. It is given the words of `dream_words` and has no code but its laws.
//! It promises that whatever is made of these parts only continues when it may make more turns.
#![tactic(auto)]

mod laws;

pub use laws::{effects_are_runs, parts_are_runs};
