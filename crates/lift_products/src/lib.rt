//! The blocks of MUL, IMUL, DIV and IDIV.
//! Given are the operands of an instruction and its address.
//! Promised is one block that is the instruction's, whatever the next address: it has its effect and is never stuck.
#![tactic(auto)]

mod products;
mod quotients;
mod words;

pub use products::{imul_wide, imul2, imul3, mul};
pub use quotients::{div, idiv};
