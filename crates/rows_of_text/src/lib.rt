//! Rows of the C that is printed, read and run, and of terms, worked out by hand.
//! It is given nothing, and has tests alone.
//! What it promises is what they compare.
#![tactic(auto)]

#[cfg(test)]
mod guards;
#[cfg(test)]
mod printing;
#[cfg(test)]
mod reading;
#[cfg(test)]
mod runs;
#[cfg(test)]
mod terms;
