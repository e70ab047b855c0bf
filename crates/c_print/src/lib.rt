//! The canonical text of a function of the C profile, and its length.
//! Given: a function as plain data.
//! Promises: its canonical text, byte for byte. Memory is asked for once, before the first byte.
#![tactic(auto, using(crate::proofs::Texts::texts))]

mod digits;
mod fun;
mod page;
mod spelling;
mod stmt;
mod word;

pub use digits::eight_digits;
pub use fun::{exact_len, print};
