//! The outside as the program meets it: files that are read, and streams that are written.
//! Given are the system's files and streams, or files and a stream kept in memory for tests.
//! Promised is when a call may fail, what it leaves then, and what it took or gave otherwise.
#![tactic(auto)]

mod files;
mod mem_files;
mod mem_sink;
mod real;
mod sink;

pub use files::{Failed, Files};
pub use mem_files::{MemFile, MemFiles};
pub use mem_sink::MemSink;
pub use real::{RealFiles, RealSink};
pub use sink::Sink;
