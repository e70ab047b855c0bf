//! Files for drills: nests of loops, ladders of branches, and many small functions.
//! Given is how many. Promised are exactly the bytes of the file, and the ranges of its functions.
#![tactic(auto)]

mod code;
mod drill;
mod files;

pub use drill::{drill_ranges, make_drill};
pub use files::{make_ladder, make_nest};
