//! What a change of a flow keeps: which names its blocks read and set, and when its runs are those of the old flow.
//! Given are flows.
//! Promised are laws on the definitions that every change of a flow rests on, and which names a word reads.
#![tactic(auto)]

mod laws;
mod reads;

pub use laws::{
    changed_agree, ends_see, going_alike_keeps_runs, keeping_composes, keeping_counts,
    read_names_decide, statements_see,
};
pub use reads::{cond_reads, is_flag, is_register, same_name, word_reads};
