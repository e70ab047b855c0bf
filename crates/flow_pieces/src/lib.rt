//! The pieces of a flow: the blocks of what stands at one address.
//! Given nothing: this is a type alone.
//! Promised, in specs/: when a piece does what the machine does from its address.
#![tactic(auto)]

mod piece;

pub use piece::FlowPiece;
