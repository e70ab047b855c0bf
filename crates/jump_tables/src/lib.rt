//! Jump tables: where a compiler's switch stands in the code of a range, as its spelling shows.
//! Given are an image, a range and an address. Promised is the window that stands there, with its default and its
//! table, or None exactly where none does.
#![tactic(auto)]

mod forms;
mod known;
mod laws;
mod path;
mod reading;
mod table;
mod windows;

pub use forms::Form;
pub use laws::one_window;
pub use reading::inst_at;
pub use table::TableWindow;
pub use windows::window;
