//! The meaning of instructions. Given is an instruction, and the registers, flags and words that its step begins with.
//! Promised are the reads of a step in their order, and what it does: new registers and flags, at most one store, and
//! where the run goes on, each by the row of its instruction; and whether an instruction reads an undefined flag.
#![tactic(auto)]

mod accesses;
mod arithmetic;
mod bits;
mod effect;
mod effects;
mod laws;
mod meaning;
mod operands;
mod products;
mod rows;
mod shifts;
mod strings;
mod undefined;

pub use effect::{Access, Effect, Go, Reads, Step, Stored};
pub use laws::{conditions_are_opposite, parts_are_apart, product_overflows_by_halves, strays_so};
pub use meaning::{apply, wants};
pub use undefined::reads_undefined;
