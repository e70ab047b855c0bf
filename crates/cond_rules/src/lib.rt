//! Rules on Conds: comparisons in the place of conditions that are spelled out by flags.
//! Given are Words and Conds.
//! Promised are ones that may stand for them.
#![tactic(auto)]

mod chosen;
mod compared;
mod equal;
mod joined;
mod made;
mod negated;
mod shapes;
mod signs;
mod widths;

pub use compared::{compared_cond, compared_word};
