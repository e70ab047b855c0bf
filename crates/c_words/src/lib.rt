//! Words and Conds of the C profile: to build, to copy and to compare them.
//! Given are their parts, or whole ones by reference.
//! Promised is exactly the Word or Cond that is built or copied, and whether two are equal.
#![tactic(auto)]

mod build;
mod copy;
mod same;

pub use build::{and, bin, cmp, cond_not, fn1, fn2, fn3, name, num, or, pick, word_if, word_not};
pub use copy::{copy_cond, copy_word};
pub use same::{same_cond, same_word};
