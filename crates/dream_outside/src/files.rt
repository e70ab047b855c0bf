//! Files that are read.

ghost use Rattle.std.specs.Prelude.{◌≡◌, ℕ, List, Option, OnOk, OnErr};
ghost use Rattle.std.specs.Io.{ReadsAtMost};
ghost use Rattle.std.specs.Io.KnownBytes.{ReadConsumes};
ghost use Rattle.dream_outside.specs.Causes.{HasCause, OpensHeld, IsOpened, CountsTaken};

/// A call on the outside failed.
#[derive(Clone, Copy, Debug, PartialEq, Eq)]
pub struct Failed;

/// Files that are read one at a time.
pub trait Files {
    /// The bytes by path, where it tells them.
    ghost held: { Self → Option (List ℕ → Option (List ℕ)) };

    /// The bytes of the opened file that are still to be taken, where it tells them.
    ghost left: { Self → Option (List ℕ) };

    /// How many bytes were taken since the last file was opened, up to `u64::MAX`.
    ghost got: { Self → ℕ };

    /// How often a call failed by a fault of the outside, up to `u64::MAX`.
    ghost faults: { Self → ℕ };

    /// Opens the file at a path, to be taken from its start.
    fn open_file(&mut self, path: &str) -> Result<(), Failed>
        ensures cause { OpensHeld (faults self.old) (faults self.new) (held self.old) path.now result }
        ensures held { held self.new ≡ held self.old }
        ensures opened { OnOk result (IsOpened (held self.old) path.now (left self.new)) }
        ensures none_got { OnOk result (got self.new ≡ 0) }
        ensures no_fault { OnOk result (faults self.new ≡ faults self.old) }
        ensures left { OnErr result (left self.new ≡ left self.old) }
        ensures got { OnErr result (got self.new ≡ got self.old) };

    /// Takes the next bytes into the front of a buffer, and answers how many.
    /// It takes none only at the file's end, or into an empty buffer.
    fn take(&mut self, into: &mut [u8]) -> Result<usize, Failed>
        ensures bound { ReadsAtMost result into.new }
        ensures bytes { ReadConsumes (left self.old) (left self.new) result into.new }
        ensures left { OnErr result (left self.new ≡ left self.old) }
        ensures got { CountsTaken (got self.old) (got self.new) result }
        ensures held { held self.new ≡ held self.old }
        ensures cause { HasCause (faults self.old) (faults self.new) result }
        ensures no_fault { OnOk result (faults self.new ≡ faults self.old) };
}
