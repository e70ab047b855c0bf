//! What lifting is made of: when blocks are those of an instruction, and the words and statements that they have.
//! Given are operands, sizes and registers of instructions.
//! Promised is exactly the word or the statement that reads or writes them.
#![tactic(auto)]

mod statements;
mod words;

pub use statements::{push_pair_reads, push_pushes, push_reads, push_writes, set_part, width_of};
pub use words::{address_word, flag, low_word, number, part_word, raw_word, reg, temp, value_word};
