//! From a window to its blocks.
//! Given are an image, a range, and a window that stands at an address of it.
//! Promised are blocks that do what the machine does there, in several steps, up to the default or a target.
#![tactic(auto)]

mod blocks;
mod locals;
mod parts;
mod path;
mod window;

pub use window::lift_window;
