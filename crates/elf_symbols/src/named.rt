//! Functions under their names.

use elf_image::{Bytes, Range};

/// A function: its name, without the zero byte, and its addresses.
#[derive(Drop)]
pub struct Named {
    pub name: Bytes,
    pub range: Range,
}

/// The functions of a file.
#[derive(Drop)]
pub struct Functions {
    pub list: Vec<Named>,
}
