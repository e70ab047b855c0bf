//! Which names of a flow are live at the beginning of each of its blocks, and the flow without what nobody sees.
//! Given are flows.
//! Promised are sets of live names that are closed, and a flow that keeps the runs of the old one.
#![tactic(auto)]

mod across;
mod before;
mod cleaning;
mod comers;
mod laws;
mod live;
mod names;
mod row;
mod seen;
mod settle;
mod spread;

pub use cleaning::{clean, clean_by};
pub use laws::cleaning_keeps;
pub use live::Live;
pub use settle::liveness;
