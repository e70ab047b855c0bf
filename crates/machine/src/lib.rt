//! The machine: what a range of an image does, instruction by instruction, from any start and with any answers.
//! Given are the frozen bytes of an image and a range of addresses in it, a start and answers.
//! Promised are the outcome for each number of steps, and, as laws on the definitions, that each range has its
//! instructions, when a step strays, and what a run is where every page may be read and written.
#![tactic(auto)]

mod held;
mod laws;
mod memory;
mod runs;
mod settings;
mod states;

pub use laws::{all_pages_are_free, every_range_decodes, outcomes_stay, straying_is_exact};
pub use memory::start_memory;
pub use runs::run;
pub use settings::Setting;
pub use states::{Led, Machine};
