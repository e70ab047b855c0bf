//! Reads the i386 instruction at the front of some bytes.
//! Given: any bytes. Promises: an instruction exactly where a front of the bytes spells one, `Cut`
//! exactly where more bytes could still make one, and `None` in all other cases.
#![tactic(auto)]

mod build;
mod decoder;
mod fields;
mod find;
mod forms;
mod rows;
mod table;

pub use build::Fields;
pub use decoder::{Decoded, decode, one_reading};
pub use find::all_rows;
pub use forms::{Form, Immediate, Shifted, Sizing, Source};
pub use rows::{Mode, Repeats, Row, Width};
pub use table::TABLE;
