//! Conditions in the place of the locals that hold their outcomes, in tests.
//! It is given a function of the C profile that is well formed.
//! It promises one that is well formed, with the same counts and the same runs.
#![tactic(auto)]

mod counted;
mod free;
mod function;
mod opposite;
mod placing;
mod reads;
mod statements;

pub use function::with_conds;
