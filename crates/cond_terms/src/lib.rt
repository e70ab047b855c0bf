//! Terms: conditions over variables that stand for words, as they guard the parts of a tree.
//! It is given the graphs of `graph_order`. It promises copies, whether two terms are the same or exclude each other, how many
//! literals a term has, terms of the same truth that are simple, or have common conjuncts taken out, and the guards of a graph's nodes.
#![tactic(auto)]

mod exclusion;
mod factored;
mod guards;
mod large;
mod laws;
mod places;
mod reached;
mod simple;
mod term;

pub use exclusion::exclusive;
pub use factored::factor;
pub use guards::{Edge, Edges, Guard};
pub use laws::{guards_tell, terms_mean_so};
pub use reached::reaching;
pub use simple::simplify;
pub use term::{Lit, Term, copy, same_term, size};
