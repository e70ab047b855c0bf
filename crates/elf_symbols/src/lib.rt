//! Symbols: which functions the symbol sections of an ELF32 file name, and where they are.
//! Given are the bytes of a file. Promised is the range of the first function of a name, or the list of all
//! functions that have a name, or how the sections are broken and where.
#![tactic(auto)]

mod fields;
mod find;
mod list;
mod named;
mod names;
mod sections;
mod symbols;
mod zeros;

pub use find::{FindFault, function_named};
pub use list::{ListFault, functions};
pub use named::{Functions, Named};
