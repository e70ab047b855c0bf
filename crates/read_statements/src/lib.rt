//! Reading of a function of the C profile, one token at a time, by an explicit stack.
//! Given: tokens, one after another.
//! Promises: the function that they are, or the first token with which none goes on. What was read
//! before can always be completed.
#![tactic(auto)]

mod body;
mod laws;
mod marks;
mod open;
mod reader;
mod turns;
mod values;

pub use body::{Body, Outcome, Place};
pub use laws::{at_the_end, can_go_on, from_the_start, one_token};
pub use open::{Decl, Head, Mark, Nest, Open, Point, Switching, Turn, Use};
pub use reader::Reader;
pub use values::Values;
