//! What the command `run` is given and what it tells: words, starts and lines.
//! Given are words of the command line and an image, or an outcome and the memory that its run started in.
//! Promised are what the words say, the start that they give over the image's memory, and the line of the outcome.
#![tactic(auto)]

mod laws;
mod lines;
mod numbers;
mod starts;
mod words;

pub use laws::{files_hold_bytes, starts_are_starts};
pub use lines::line;
pub use numbers::{count, value};
pub use starts::start;
pub use words::{StartWord, are_start_words, start_word};
