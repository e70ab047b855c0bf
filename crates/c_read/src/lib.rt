//! Reading of a text of the C profile.
//! Given: the bytes of a text.
//! Promises: the function for which the text stands; or the place of the first token with which no
//! text of the profile goes on, where it stands for none.
#![tactic(auto)]

mod laws;
mod text;

pub use laws::{one_place, prints_read_back, reads_exactly};
pub use text::{TextFault, read};
