//! What the two blocks of a window do.
//! Given are blocks of the window's instructions, one after another, and a local that keeps the index.
//! Promised, as lemmas: they do what the machine does there, in several steps.
#![tactic(auto)]
