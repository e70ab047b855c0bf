//! The tokens of a text of the C profile, and where they stand.
//! Given: the bytes of a text, and a place in it.
//! Promises: the next token from that place on, where it begins and ends, and which token of the
//! profile its bytes spell, or that they spell none.
#![tactic(auto)]

mod bytes;
mod laws;
mod numbers;
mod scan;
mod spelled;
mod token;

pub use laws::{function_tokens, one_spelling};
pub use scan::{Lexeme, next_lexeme};
pub use token::token_of;
