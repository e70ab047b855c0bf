//! Rows of words, graphs, instructions, code and the machine, worked out by hand or taken from outside.
//! It is given nothing, and has tests alone.
//! What it promises is what they compare.
#![tactic(auto)]

#[cfg(test)]
mod discovery;
#[cfg(test)]
mod graphs;
#[cfg(test)]
mod images;
#[cfg(test)]
mod meanings;
#[cfg(test)]
mod outside;
#[cfg(test)]
mod runs;
#[cfg(test)]
mod spellings;
#[cfg(test)]
mod windows;
#[cfg(test)]
mod words;
