//! The evaluator of Words and Conds.
//! Given: a Word or a Cond of the C profile, and whatever has a word for each name.
//! Promises: exactly the value, or the truth, that it has there; None exactly where it is stuck.
#![tactic(auto)]

mod evaluate;

pub use evaluate::{Words, truth, value};
