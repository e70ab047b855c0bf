//! From the code of a range to its C.
//! Given are an image, a range of addresses in it, and a form.
//! Promised is a function that agrees with the range, or its text, or the place that is named.
#![tactic(auto)]

mod decompile;
mod form;
mod settled;
mod short;

pub use decompile::{decompile_fun, decompile_one};
pub use form::Form;
