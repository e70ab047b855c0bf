//! The steps of the machine at a window.
//! Given are a window, a state, and the value of the index in it.
//! Promised, as lemmas: where the index is too great they lead to the default, and else to its target.
#![tactic(auto)]
