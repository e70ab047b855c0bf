//! Files that hold code, for rows of the program.
//! It is given code and tables.
//! It promises nothing but to be safe: what the files are is compared by the rows.
#![tactic(auto)]

mod files;

pub use files::{MOVE, THREE, elf, elf_at, elf_with_main, elf_with_table, push_words};
