//! Rows of the program: files and words, and what they are answered.
//! It is given nothing, and has tests alone.
//! What it promises is what they compare.
#![tactic(auto)]

#[cfg(test)]
mod calls;
#[cfg(test)]
mod header;
#[cfg(test)]
mod refusals;
#[cfg(test)]
mod side_by_side;
#[cfg(test)]
mod texts;
