//! From a range of code to what of it is reached.
//! Given are an image and a range of addresses in it.
//! Promised is the graph of what is reached in the order of discovery, or the place that is outside the profile.
#![tactic(auto)]

mod discovery;
mod laws;
mod place;
mod range_code;
mod sites;
mod successors;
mod walk;

pub use discovery::discover;
pub use laws::{nodes_are_their_places, one_discovery, one_place};
pub use place::{Cause, FlowFault, Found, Place};
pub use successors::{instruction_successors, window_successors};
