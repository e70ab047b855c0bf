//! The run of a C function.
//! Given: a function of the C profile, a start, the answers to its calls, and a bound on loop turns.
//! Promises: the outcome that the function means, or that memory was refused.
#![tactic(auto)]

mod callees;
mod env;
mod run;
mod state;

pub use run::run_c;
