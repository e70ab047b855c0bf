//! The words that every meaning is told in: registers, flags, memories, what a run starts from,
//! what its calls are answered, and how it ends. It is given nothing and rests on no other crate.
//! It promises that a memory reads and changes just the named bytes, which byte of an access isn't
//! allowed, and that agreements compose.
#![tactic(auto)]

mod laws;
mod machine;
mod memory;
mod outcome;
mod pages;
mod signed;
mod tree;
mod words;

pub use laws::{agreements_compose, all_pages_allow_all, first_bad_is_exact};
pub use machine::{Bit, Flags, Name, Regs, Width};
pub use memory::Memory;
pub use outcome::{Answer, Call, Outcome, Start};
pub use pages::{PageRun, Pages, first_bad};
pub use signed::{div_s, mul_hi_s};
pub use words::{
    borrow, carry_add, div_u, highest_one, less_signed, low, lowest_one, mul_hi_u, over_add,
    over_sub, parity, shifted_signed, sign, sx,
};
