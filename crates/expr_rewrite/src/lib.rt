//! Words and Conds of a flow that read better: comparisons in the place of flags, and no more parts than there were.
//! Given are Words, Conds and flows.
//! Promised are Words and Conds that may stand for the given ones, without sums with 0 and operations on two numbers, and a
//! flow that keeps the given one.
#![tactic(auto)]

mod blocks;
mod flows;
mod statements;
mod words;

pub use flows::rewrite_flow;
pub use words::{rewrite, rewrite_cond};
