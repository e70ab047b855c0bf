//! Locals that nothing reads are dropped from a function.
//! It is given a function of the C profile that is well formed.
//! It promises one that is well formed, with the same counts, and with the same run wherever that of the first isn't
//! stuck.
#![tactic(auto)]

mod function;
mod locals;
mod marks;
mod statements;
mod words;

pub use function::without_unread;
