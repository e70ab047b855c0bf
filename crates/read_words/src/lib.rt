//! Reading of Words and Conds of the C profile, one token at a time.
//! Given: what is wanted, the locals that are declared, and tokens, one after another.
//! Promises: the Word or Cond that they are, or the first token with which none goes on. What was
//! read before can always be completed.
#![tactic(auto)]

mod laws;
mod locals;
mod open;
mod part;
mod turns;

pub use laws::{can_go_on, from_the_start, not_the_end, one_token};
pub use open::{Call, Item, Locals, Open, State, Turn, Wanted};
pub use part::Part;
