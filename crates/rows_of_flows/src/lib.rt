//! Rows of flows, trees, words of a start and page rights, worked out by hand.
//! It is given nothing, and has tests alone.
//! What it promises is what they compare.
#![tactic(auto)]

#[cfg(test)]
mod flows;
#[cfg(test)]
mod page_rights;
#[cfg(test)]
mod starts;
#[cfg(test)]
mod trees;
#[cfg(test)]
mod values;
