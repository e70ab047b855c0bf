//! Calls of the program over files and streams in memory.

ghost use Rattle.std.specs.Prelude.{None};

use dream_outside::{Failed, Files, MemFile, MemFiles, MemSink};
use dream_top::{Status, dream};
use std::alloc::Global;
use std::test::Fail;

// What a call of the program answered and wrote.
#[derive(Drop)]
pub(crate) struct Ran {
    pub(crate) status: Status,
    pub(crate) out: MemSink,
    pub(crate) notes: MemSink,
}

pub(crate) fn sink(alloc: Global) -> Result<MemSink, Fail> {
    Ok(MemSink::new(alloc, 67_108_864, 67_108_864, Vec::new(alloc))?)
}

pub(crate) fn call<F: Files>(
    alloc: Global,
    files: &mut F,
    words: &[&str],
    mut out: MemSink,
) -> Result<Ran, Fail> {
    let mut list = Vec::new(alloc);
    for word in words {
        list.push(String::from_str(alloc, word)?)?;
    }
    let mut notes = sink(alloc)?;
    let status = dream(alloc, &list, files, &mut out, &mut notes);
    Ok(Ran { status, out, notes })
}

// One file, at the path `a`.
pub(crate) fn files(alloc: Global, bytes: Vec<u8>, fails: Vec<u64>) -> Result<MemFiles, Fail> {
    let path = String::from_str(alloc, "a")?;
    Ok(MemFiles::new(vec![in alloc; MemFile { path, bytes }]?, fails))
}

pub(crate) fn decompile(alloc: Global, file: Vec<u8>, func: &str) -> Result<Ran, Fail> {
    let mut files = files(alloc, file, Vec::new(alloc))?;
    call(alloc, &mut files, &["decompile", "a", func], sink(alloc)?)
}

// Runs the function at a range of a file for at most 100 steps, with up to three words for its start.
pub(crate) fn run(
    alloc: Global,
    file: Vec<u8>,
    func: &str,
    first: &str,
    second: &str,
    third: &str,
) -> Result<Ran, Fail> {
    let mut files = files(alloc, file, Vec::new(alloc))?;
    let out = sink(alloc)?;
    if first.is_empty() {
        call(alloc, &mut files, &["run", "a", func, "100"], out)
    } else if second.is_empty() {
        call(alloc, &mut files, &["run", "a", func, "100", first], out)
    } else if third.is_empty() {
        call(
            alloc,
            &mut files,
            &["run", "a", func, "100", first, second],
            out,
        )
    } else {
        call(
            alloc,
            &mut files,
            &["run", "a", func, "100", first, second, third],
            out,
        )
    }
}

// The text at the path `a`, tidied.
pub(crate) fn tidy(alloc: Global, text: &[u8]) -> Result<Ran, Fail> {
    let mut files = files(alloc, Vec::from_slice(alloc, text)?, Vec::new(alloc))?;
    call(alloc, &mut files, &["tidy", "a"], sink(alloc)?)
}

// A file of zeros, none of which is kept.
#[derive(Drop)]
pub(crate) struct Zeros {
    pub(crate) left: usize,
    pub(crate) got: u64,
}

impl Files for Zeros {
    ghost held = { λ _. None };

    ghost left = { λ _. None };

    ghost got = { λ z. z.got };

    ghost faults = { λ _. 0 };

    fn open_file(&mut self, _path: &str) -> Result<(), Failed> {
        self.got = 0;
        Ok(())
    }

    fn take(&mut self, into: &mut [u8]) -> Result<usize, Failed> {
        let count = into.len().min(self.left);
        self.left -= count;
        self.got = self.got.saturating_add(count as u64);
        Ok(count)
    }
}
