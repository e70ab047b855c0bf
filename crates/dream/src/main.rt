//! The program over the system's files and streams: it prints the C of one function of an ELF file, or the header.
//! Given are the words after the program's name, standard output and standard error.
//! Promised is the exit status that the call answers; what it writes is that call's promise.
#![tactic(auto)]

mod words;

use dream_outside::{RealFiles, RealSink};
use dream_top::{Status, dream};
use std::env;
use std::process::ExitCode;
use words::words_of;

fn main(rt: HostRuntime) -> ExitCode {
    let alloc = rt.alloc();
    let Ok(words) = words_of(alloc, env::args(&rt)) else {
        return ExitCode::from(Status::NoMemory.code());
    };
    let mut out = RealSink::new(rt.stdout());
    let mut notes = RealSink::new(rt.stderr());
    let mut files = RealFiles::new(rt);
    let status = dream(alloc, &words, &mut files, &mut out, &mut notes);
    ExitCode::from(status.code())
}
