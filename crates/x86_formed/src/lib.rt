//! What every instruction that has a spelling shows.
//! It is given nothing and has no code but its law.
//! Promised is that its registers exist, and that at most one of its operands is memory.
#![tactic(auto)]

mod laws;

pub use laws::spelled_is_formed;
