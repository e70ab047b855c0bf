//! Where a run starts, what its calls are answered, and how it ends.

use crate::machine::{Flags, Regs};
use crate::memory::Memory;
use crate::pages::Pages;
use sqlite_items::Items;

/// The state in which a run starts.
#[derive(Drop)]
pub struct Start {
    pub regs: Regs,
    pub flags: Flags,
    /// The base of the segment FS.
    pub fs: u32,
    /// The base of the segment GS.
    pub gs: u32,
    pub mem: Memory,
    /// The pages that may be read and written; they stay the same while the run lasts.
    pub pages: Pages,
}

/// What a call comes back with.
#[derive(Drop)]
pub struct Answer {
    pub regs: Regs,
    pub flags: Flags,
    pub mem: Memory,
}

/// A call: where it goes, and the registers and the memory that it hands over.
#[derive(Drop)]
pub struct Call {
    pub target: u32,
    pub regs: Regs,
    pub mem: Memory,
}

/// How a run ends, or that it goes on past the bound that it was given.
#[derive(Drop)]
pub enum Outcome {
    /// The function returned.
    Returned {
        regs: Regs,
        mem: Memory,
        calls: Items<Call>,
    },
    /// The run met the fault of a vector (Intel SDM vol. 3, 6.3.1), 0 to 255.
    Faulted {
        vector: u32,
        /// Of a page fault, vector 14, the address of the first byte that isn't allowed; else 0.
        at: u32,
        mem: Memory,
        calls: Items<Call>,
    },
    /// The last of the calls has no answer.
    Asking {
        calls: Items<Call>,
    },
    /// The machine took a step of which nothing is said.
    Strayed,
    /// No instruction begins where the machine stands.
    Undecoded,
    /// The C text did what C leaves undefined.
    Stuck,
    /// The bound was reached first.
    Going {
        calls: Items<Call>,
    },
}
