//! Files kept in memory, some of whose calls fail.

ghost use Rattle.std.specs.Prelude.{◌≡◌, ◌<◌, ◌≤◌, ◌⊎◌, ◌↔◌, ℕ, List, [], min, length, take, Option, Some, None, MatchOption, IfSome, IsErr, OnOk, OnErr, IfOk, IsTrue, true, false};
ghost use Rattle.std.specs.Io.{ReadsAtMost};
ghost use Rattle.std.specs.Io.KnownBytes.{ReadConsumes};
ghost use Rattle.dream_outside.specs.Causes.{HasCause, OpensHeld, IsOpened, CountsTaken};
ghost use Rattle.dream_outside.specs.MemFiles.{bytes_at, opened};

use crate::files::{Failed, Files};

/// A file kept in memory.
#[derive(Drop)]
pub struct MemFile {
    pub path: String,
    pub bytes: Vec<u8>,
}

/// Files kept in memory. Calls are numbered from 1 over both methods, up to `u64::MAX`;
/// those whose numbers are in `fails` fail and are counted as faults.
#[derive(Drop)]
pub struct MemFiles {
    files: Vec<MemFile>,
    fails: Vec<u64>,
    calls: u64,
    place: usize,
    at: usize,
    got: u64,
    faults: u64,
}

// The place of the first file that has the path.
fn place_of(files: &[MemFile], path: &str) -> Option<usize>
    ensures within { MatchOption result (bytes_at files.now path.now ≡ None) (λ i. bytes_at files.now path.now ≡ Some (opened files.now i)) }
    ensures place { IfSome result (λ i. i < length files.now) }
{
    for (i, file) in files.iter().enumerate() {
        if file.path.as_str() == path {
            return Some(i);
        }
    }
    None
}

// Copies a front of the bytes into a front of the buffer, as much as fits.
fn copy_front(into: &mut [u8], from: &[u8]) -> usize
    ensures count { result ≡ min (length into.old) (length from.now) }
    ensures bytes { take result into.new ≡ take result from.now }
{
    let count = into.len().min(from.len());
    into[..count].copy_from_slice(&from[..count]);
    count
}

impl MemFiles {
    ghost use Rattle.dream_outside.specs.MemFiles.{held_by, left_in, got_by, faults_of, calls_of, failing_calls, IsFailing, counted_call, raised};

    /// Files at their paths. Of two files with one path the first is held.
    pub fn new(files: Vec<MemFile>, fails: Vec<u64>) -> MemFiles
        ensures held { held_by result ≡ bytes_at files.items }
        ensures left { left_in result ≡ [] }
        ensures got { got_by result ≡ 0 }
        ensures faults { faults_of result ≡ 0 }
        ensures calls { calls_of result ≡ 0 }
        ensures failing { failing_calls result ≡ fails.items }
    {
        let place = files.len();
        MemFiles {
            files,
            fails,
            calls: 0,
            place,
            at: 0,
            got: 0,
            faults: 0,
        }
    }

    // Counts a call, and says whether it is to fail. A call that fails so is a fault.
    fn is_failing(&mut self) -> bool
        ensures failing { IsTrue result ↔ IsFailing self.old }
        ensures fault { result ≡ true → self.new ≡ record self.old { calls = counted_call self.old; faults = raised self.old.faults } }
        ensures none { result ≡ false → self.new ≡ record self.old { calls = counted_call self.old } }
        ensures later { self.old.faults ≤ self.new.faults }
    {
        self.calls = self.calls.saturating_add(1);
        let is_failing = self.fails.contains(&self.calls);
        if is_failing {
            self.faults = self.faults.saturating_add(1);
        }
        is_failing
    }

    // The bytes of the opened file that are still to be taken.
    fn rest(&self) -> &[u8]
        ensures { result.now ≡ left_in self.now }
    {
        match self.files.get(self.place) {
            Some(file) if self.at <= file.bytes.len() => &file.bytes[self.at..],
            _ => &[],
        }
    }
}

impl Files for MemFiles {
    ghost use Rattle.dream_outside.specs.MemFiles.{held_by, left_in, got_by, faults_of, failing_calls, calls_of, counted_call, IsFailing, RaisesFault};

    ghost held = { λ m. Some (held_by m) };

    ghost left = { λ m. Some (left_in m) };

    ghost got = { λ m. got_by m };

    ghost faults = { λ m. faults_of m };

    fn open_file(&mut self, path: &str) -> Result<(), Failed>
        ensures cause { OpensHeld (faults_of self.old) (faults_of self.new) (Some (held_by self.old)) path.now result }
        ensures held { held_by self.new ≡ held_by self.old }
        ensures opened { OnOk result (IsOpened (Some (held_by self.old)) path.now (Some (left_in self.new))) }
        ensures none_got { OnOk result (got_by self.new ≡ 0) }
        ensures no_fault { OnOk result (faults_of self.new ≡ faults_of self.old) }
        ensures left { OnErr result (left_in self.new ≡ left_in self.old) }
        ensures got { OnErr result (got_by self.new ≡ got_by self.old) }

        // It fails just where its number is listed or nothing is held at the path, and raises the count only by the list.
        ensures failed { IsErr result ↔ (IsFailing self.old ⊎ (held_by self.old path.now ≡ None)) }
        ensures faults { RaisesFault self.old self.new }
        ensures calls { calls_of self.new ≡ counted_call self.old }
        ensures failing { failing_calls self.new ≡ failing_calls self.old }
    {
        if self.is_failing() {
            return Err(Failed);
        }
        match place_of(&self.files, path) {
            None => Err(Failed),
            Some(place) => {
                self.place = place;
                self.at = 0;
                self.got = 0;
                Ok(())
            }
        }
    }

    fn take(&mut self, into: &mut [u8]) -> Result<usize, Failed>
        ensures bound { ReadsAtMost result into.new }
        ensures bytes { ReadConsumes (Some (left_in self.old)) (Some (left_in self.new)) result into.new }
        ensures left { OnErr result (left_in self.new ≡ left_in self.old) }
        ensures got { CountsTaken (got_by self.old) (got_by self.new) result }
        ensures held { held_by self.new ≡ held_by self.old }
        ensures cause { HasCause (faults_of self.old) (faults_of self.new) result }
        ensures no_fault { OnOk result (faults_of self.new ≡ faults_of self.old) }

        // It fails just where its number is listed, and else takes as much as fits.
        ensures failed { IsErr result ↔ IsFailing self.old }
        ensures taken { IfOk result (λ n. n ≡ min (length into.old) (length (left_in self.old))) }
        ensures faults { RaisesFault self.old self.new }
        ensures calls { calls_of self.new ≡ counted_call self.old }
        ensures failing { failing_calls self.new ≡ failing_calls self.old }
    {
        if self.is_failing() {
            return Err(Failed);
        }
        let count = copy_front(into, self.rest());
        self.at += count;
        self.got = self.got.saturating_add(count as u64);
        Ok(count)
    }
}
