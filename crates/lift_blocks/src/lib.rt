//! What the blocks of all instructions share: when one has the effect of an instruction, how it ends, and how flags are set.
//! Given are statements, the words of an operation, or a word to extend.
//! Promised is exactly the block, the statements or the word.
#![tactic(auto)]

mod blocks;
mod extension;
mod flags;

pub use blocks::{branches, goes_on, nothing, returns};
pub use extension::extended;
pub use flags::{push_but_carry, push_flags};
