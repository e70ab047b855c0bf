//! The blocks of the tests of bits, the searches for one, and the string instructions.
//! Given are an instruction's operation, operands and address.
//! Promised is a block that has its effect; of a repeated string instruction the round, before which ECX is tested.
#![tactic(auto)]

mod bits;
mod strings;

pub use bits::{bit, scan};
pub use strings::{ecx_test, string};
