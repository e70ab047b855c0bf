//! The line that tells what becomes of a drill: of how many functions, which are accepted and what the C of these has.
//! Given is how many functions the drill has.
//! Promised is the line of the counts of its functions, each of which is decompiled or refused with its cause.
#![tactic(auto)]

mod drill;
mod laws;
mod line;
mod range_counts;
mod statements;

pub use drill::drill_line;
pub use laws::{code_has_image, drill_has_image};
pub use range_counts::{Counts, counts_of};
