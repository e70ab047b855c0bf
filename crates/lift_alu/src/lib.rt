//! The words of the operations on two words, and the conditions of the flags.
//! Given are an operation with the words of its operands, at 8, 16 or 32 bits, or a condition.
//! Promised are the words of its result and of its five flags, or the condition's truth, in every state.
#![tactic(auto)]

mod alu;
mod condition;

pub use alu::{AluLift, lift_alu};
pub use condition::lift_cond;
