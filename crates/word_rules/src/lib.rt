//! Rules on Words: a Word that reads better in the place of another, with the same value and no more parts.
//! Given are Words and Conds.
//! Promised are ones that may stand for them, in which no sum with 0 and no operation on two numbers is left.
#![tactic(auto)]

mod bins;
mod masks;
mod numbers;
mod operators;
mod plain;
mod words;

pub use bins::bin;
pub use masks::known;
pub use plain::{plain_cond, plain_word};
