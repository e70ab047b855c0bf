//! What a step begins with, what it reads, and what it does.

use dream_words::{Flags, Regs, Width};

/// What a step begins with: registers, flags and bases, the words that it reads, and the address after it.
#[derive(Clone, Copy)]
pub struct Step {
    pub regs: Regs,
    pub flags: Flags,
    /// The base of the segment FS.
    pub fs: u32,
    /// The base of the segment GS.
    pub gs: u32,
    /// The first word that is read, or 0.
    pub first: u32,
    /// The second word that is read, or 0.
    pub second: u32,
    /// The address of the next instruction.
    pub next: u32,
}

/// A read of memory.
#[derive(Clone, Copy, Debug, PartialEq, Eq)]
pub struct Access {
    pub at: u32,
    pub width: Width,
}

/// What a step reads, in order. A single read is the first.
#[derive(Clone, Copy, Debug, PartialEq, Eq)]
pub struct Reads {
    pub first: Option<Access>,
    pub second: Option<Access>,
}

/// A store of the low bytes of a word.
#[derive(Clone, Copy, Debug, PartialEq, Eq)]
pub struct Stored {
    pub at: u32,
    pub width: Width,
    pub value: u32,
}

/// Where a run goes after a step.
#[derive(Clone, Copy, Debug, PartialEq, Eq)]
pub enum Go {
    /// On after the instruction.
    Next,
    /// The instruction stands again.
    Again,
    /// To an address.
    To(u32),
    /// Into the function at an address, and then on after the instruction.
    CallTo(u32),
    /// Out, to the function at an address.
    LeaveTo(u32),
    /// Back to the caller.
    Return,
    /// Into the fault of a vector.
    Fault(u32),
    /// It reads an undefined flag, or scans 0 for a bit.
    Stray,
}

/// What a step does.
#[derive(Clone, Copy, Debug, PartialEq, Eq)]
pub struct Effect {
    pub regs: Regs,
    pub flags: Flags,
    pub store: Option<Stored>,
    pub go: Go,
}
