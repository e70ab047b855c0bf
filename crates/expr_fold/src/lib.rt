//! Words in place: a pass that puts words where the names stand that were set to them.
//! Given are flows.
//! Promised is a flow that keeps the given one, with the same loads, stores, calls and targets. In it no set of a temporary
//! stands directly before its only read, but where that would nest too deep.
#![tactic(auto)]

mod blocks;
mod counts;
mod delayed;
mod ends;
mod fits;
mod flows;
mod folding;
mod loads;
mod moves;
mod order;
mod placed;
mod policy;
mod said;
mod uses;

pub use fits::{cond_fits, word_fits};
pub use flows::fold;
