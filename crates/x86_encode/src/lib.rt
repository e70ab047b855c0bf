//! The shortest spelling of an i386 instruction.
//! Given: an instruction. Promises: a spelling of it such that none is shorter, and none of the same
//! length is less byte by byte; None exactly where nothing spells the instruction.
#![tactic(auto)]

mod address;
mod candidate;
mod code;
mod encoder;
mod parts;
mod shown;
mod trial;

pub use code::Code;
pub use encoder::encode;
