//! The program as one call: words in; the C of a function, its runs, a text in its canonical form, the line of a drill
//! or the header out; and a note where there is none.
//! Given are the words, the files, and the streams for the output and for the notes.
//! Promised is, for each status, what it says of them: the C means what the code means, or the refusal has its cause.
#![tactic(auto)]

mod finding;
mod header;
mod laws;
mod load;
mod notes;
mod refusals;
mod runs;
mod status;
mod top;
mod words;
mod writing;

pub use laws::{each_cause_has_its_answer, no_refusal_without_cause};
pub use status::Status;
pub use top::dream;
