//! A stream kept in memory, some of whose calls fail.

ghost use Rattle.std.specs.Prelude.{◌≡◌, ◌≤◌, ◌↔◌, [], Some, IfOk, IsErr, IsTrue, vec_len, vec_capacity};
ghost use Rattle.std.specs.Io.KnownBytes.{WriteAppends};
ghost use Rattle.dream_outside.specs.Causes.{HasCause, TakesSome};

use crate::files::Failed;
use crate::sink::Sink;
use std::alloc::{AllocError, Global};

/// A stream kept in memory, with a fixed room, which takes at most `step` bytes in one call.
/// Calls are numbered from 1, up to `u64::MAX`; those whose numbers are in `fails` fail.
#[derive(Drop)]
pub struct MemSink {
    bytes: Vec<u8>,
    room: usize,
    step: usize,
    fails: Vec<u64>,
    puts: u64,
    faults: u64,
    ghost step_counts: { 1 ≤ step },
    ghost within: { vec_len bytes ≤ room },
    ghost reserved: { room ≤ vec_capacity bytes },
}

impl MemSink {
    ghost use Rattle.dream_outside.specs.MemSink.{taken_by, faults_of, room_of, step_of, puts_of, failing_puts, IsRefusing};

    /// A stream with nothing in it. Its room is reserved here, so that no put takes memory.
    pub fn new(
        alloc: Global,
        room: usize,
        step: usize,
        fails: Vec<u64>,
    ) -> Result<MemSink, AllocError>
        requires { 1 ≤ step }
        ensures taken { IfOk result (λ s. taken_by s ≡ []) }
        ensures faults { IfOk result (λ s. faults_of s ≡ 0) }
        ensures puts { IfOk result (λ s. puts_of s ≡ 0) }
        ensures room { IfOk result (λ s. room_of s ≡ room) }
        ensures step { IfOk result (λ s. step_of s ≡ step) }
        ensures failing { IfOk result (λ s. failing_puts s ≡ fails.items) }
    {
        let bytes = Vec::with_capacity(alloc, room)?;
        Ok(MemSink {
            bytes,
            room,
            step,
            fails,
            puts: 0,
            faults: 0,
        })
    }

    // Whether the next put fails.
    fn is_refusing(&self, piece: &[u8]) -> bool
        ensures { IsTrue result ↔ IsRefusing self.now piece.now }
    {
        let is_listed = self.fails.contains(&self.puts.saturating_add(1));
        is_listed || (!piece.is_empty() && self.bytes.len() == self.room)
    }

    /// The bytes taken so far.
    pub fn bytes(&self) -> &[u8]
        ensures { result.now ≡ taken_by self.now }
    {
        &self.bytes
    }
}

impl Sink for MemSink {
    ghost use Rattle.dream_outside.specs.MemSink.{taken_by, faults_of, share_of, IsRefusing, Counts};

    ghost taken = { λ s. Some (taken_by s) };

    ghost faults = { λ s. faults_of s };

    fn put(&mut self, piece: &[u8]) -> Result<usize, Failed>
        ensures bound { TakesSome result piece.now }
        ensures bytes { WriteAppends (Some (taken_by self.old)) (Some (taken_by self.new)) result piece.now }
        ensures cause { HasCause (faults_of self.old) (faults_of self.new) result }

        // It fails just where it is listed or has no room, and else takes what a step and the room allow.
        ensures failed { IsErr result ↔ IsRefusing self.old piece.now }
        ensures share { IfOk result (λ n. n ≡ share_of self.old piece.now) }
        ensures counts { Counts self.old self.new piece.now }
    {
        let is_refusing = self.is_refusing(piece);
        self.puts = self.puts.saturating_add(1);
        if is_refusing {
            self.faults = self.faults.saturating_add(1);
            return Err(Failed);
        }
        let count = piece.len().min(self.step).min(self.room - self.bytes.len());
        match self.bytes.extend_from_slice(&piece[..count]) {
            Ok(()) => Ok(count),
            Err(_) => unreachable!(),
        }
    }
}
