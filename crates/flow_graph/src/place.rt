//! What is found of a function, or the place where it is outside the profile.

ghost use Rattle.std.specs.Prelude.{◌≡◌};
ghost use Rattle.flow_graph.specs.Place.{cause_number};
ghost use Rattle.flow_graph.specs.declared.place.FlowFault.TheVariants.{Memory};

use graph_order::Graph;
use std::alloc::AllocError;

/// Why a function is outside the profile.
#[derive(Clone, Copy, Debug, PartialEq, Eq)]
pub enum Cause {
    /// No instruction begins at a reached address.
    Instruction,
    /// The instruction at a reached address passes the range's end.
    Straddle,
    /// A reached jump goes to a word of a register or of memory, and not through a bare absolute address.
    IndirectJump,
    /// A reached call goes into the middle of the range.
    CallInside,
    /// The range has no address.
    RangeEmpty,
    /// The range has more than 65,536 addresses.
    RangeTooLarge,
    /// Some byte of the range isn't frozen.
    RangeUnbacked,
}

impl Cause {
    /// The number by which the cause is told, from 1 to 7.
    pub fn number(self) -> u8
        ensures { result ≡ cause_number self }
    {
        match self {
            Cause::Instruction => 1,
            Cause::Straddle => 2,
            Cause::IndirectJump => 3,
            Cause::CallInside => 4,
            Cause::RangeEmpty => 5,
            Cause::RangeTooLarge => 6,
            Cause::RangeUnbacked => 7,
        }
    }
}

/// Where a function is outside the profile, and why.
#[derive(Clone, Copy, Debug, PartialEq, Eq)]
pub struct Place {
    pub at: u32,
    pub cause: Cause,
}

/// What of a range is reached: the addresses in the order of discovery, and the graph of what follows what, whose node
/// k is the k-th of them.
#[derive(Drop)]
pub struct Found {
    pub graph: Graph,
    pub places: Vec<u32>,
}

/// Why a function isn't discovered.
#[derive(Clone, Copy, Debug, PartialEq, Eq)]
pub enum FlowFault {
    /// It is outside the profile at the named place.
    Outside(Place),
    /// Memory was refused.
    Memory,
}

impl From<AllocError> for FlowFault {
    ghost from_gives = { λ _ fault. fault ≡ Memory };

    fn from(_error: AllocError) -> FlowFault {
        FlowFault::Memory
    }
}
