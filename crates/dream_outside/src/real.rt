//! The system's files and streams. What they hold isn't told: this is the trusted edge.

ghost use Rattle.std.specs.Prelude.{◌≡◌, ℕ, None};

use crate::files::{Failed, Files};
use crate::sink::Sink;
use std::fs::File;
use std::io::{Read, Write};

/// The files of the system.
#[derive(Drop)]
pub struct RealFiles {
    rt: HostRuntime,
    open: Option<File>,
    got: u64,
    faults: u64,
}

impl RealFiles {
    /// No file is open yet. The runtime is the program's, by which std opens files.
    pub fn new(rt: HostRuntime) -> RealFiles
        ensures got { ⟦<RealFiles as Files>⟧.got result ≡ 0 }
        ensures faults { ⟦<RealFiles as Files>⟧.faults result ≡ 0 }
    {
        RealFiles {
            rt,
            open: None,
            got: 0,
            faults: 0,
        }
    }
}

impl Files for RealFiles {
    ghost held = { λ _. None };

    ghost left = { λ _. None };

    ghost got = { λ f. f.got };

    ghost faults = { λ f. f.faults };

    fn open_file(&mut self, path: &str) -> Result<(), Failed> {
        match File::open(&self.rt, path) {
            Ok(file) => {
                self.open = Some(file);
                self.got = 0;
                Ok(())
            }
            Err(_) => {
                self.faults = self.faults.saturating_add(1);
                Err(Failed)
            }
        }
    }

    fn take(&mut self, into: &mut [u8]) -> Result<usize, Failed> {
        let answer = match &mut self.open {
            None => Ok(0),
            Some(file) => file.read(into),
        };
        match answer {
            Ok(count) => {
                self.got = self.got.saturating_add(count as u64);
                Ok(count)
            }
            Err(_) => {
                self.faults = self.faults.saturating_add(1);
                Err(Failed)
            }
        }
    }
}

/// A stream of the system.
#[derive(Drop)]
pub struct RealSink<W: Write + Drop> {
    stream: W,
    faults: u64,
}

impl<W: Write + Drop> RealSink<W> {
    /// A stream over any writer of std. Nothing is buffered here.
    pub fn new(stream: W) -> RealSink<W>
        ensures { ⟦<RealSink<W> as Sink>⟧.faults result ≡ 0 }
    {
        RealSink { stream, faults: 0 }
    }
}

impl<W: Write + Drop> Sink for RealSink<W> {
    ghost taken = { λ _. None };

    ghost faults = { λ s. s.faults };

    fn put(&mut self, piece: &[u8]) -> Result<usize, Failed> {
        match self.stream.write(piece) {
            Ok(count) if count > 0 || piece.is_empty() => Ok(count),
            _ => {
                self.faults = self.faults.saturating_add(1);
                Err(Failed)
            }
        }
    }
}
