//! A stream that is written.

ghost use Rattle.std.specs.Prelude.{◌≡◌, ℕ, List, Option};
ghost use Rattle.std.specs.Io.KnownBytes.{WriteAppends};
ghost use Rattle.dream_outside.specs.Causes.{HasCause, TakesSome};

use crate::files::Failed;

/// A stream that is written.
pub trait Sink {
    /// The bytes taken so far, where it tells them.
    ghost taken: { Self → Option (List ℕ) };

    /// How often a call failed, up to `u64::MAX`.
    ghost faults: { Self → ℕ };

    /// Takes a front of the piece, which is not empty unless the piece is, and answers its length.
    fn put(&mut self, piece: &[u8]) -> Result<usize, Failed>
        ensures bound { TakesSome result piece.now }
        ensures bytes { WriteAppends (taken self.old) (taken self.new) result piece.now }
        ensures cause { HasCause (faults self.old) (faults self.new) result };
}
