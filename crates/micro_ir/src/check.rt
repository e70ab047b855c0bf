//! Whether each node that a flow names is one of its blocks.

ghost use Rattle.std.specs.Prelude.{◌≡◌, ℕ, ◌^◌, ◌<◌, ◌≤◌, ◌↔◌, IfSome, length, map, nat_le, Some, None, Ok, Err};
ghost use Rattle.std.specs.List.{list_any};
ghost use Rattle.micro_ir.specs.Checked.{IsChecked, bad_block, names_outside};

use crate::flow::{Case, End, Flow};
use graph_order::NodeId;

/// A block of a flow names a node that the flow doesn't have.
#[derive(Clone, Copy, Debug, PartialEq, Eq)]
pub struct BadBlock {
    /// The block's number; 0 where it is the flow's entry that isn't below the count.
    pub node: NodeId,
}

impl Flow {
    /// Whether the entry, and each node that an end names, is below the count of blocks.
    ///
    /// The least block that names another one is told, or block 0 for the entry.
    #[tactic(auto, using(crate::proofs::Named::none_bad, crate::proofs::Named::checked_none))]
    pub fn check(&self) -> Result<(), BadBlock>
        requires { length self.now.blocks < 2 ^ 30 }
        ensures ok { (result ≡ Ok tt) ↔ IsChecked self.now }
        ensures bad { (n : ℕ) → (result ≡ Err (record { node = n })) ↔ (bad_block self.now ≡ Some n) }
    {
        match self.bad_block() {
            None => Ok(()),
            Some(n) => Err(BadBlock {
                node: NodeId(n as u32),
            }),
        }
    }

    /// The bad block, where there is one.
    fn bad_block(&self) -> Option<usize>
        ensures value { result ≡ bad_block self.now }
        ensures inside { IfSome result (λ n. n ≤ length self.now.blocks) }
    {
        let count = self.blocks.len();
        if is_past(self.entry, count) {
            return Some(0);
        }
        self.blocks
            .as_slice()
            .iter()
            .position(|b| b.end.names_outside(count))
    }
}

impl End {
    /// It names a node that isn't below the count.
    fn names_outside(&self, count: usize) -> bool
        ensures { result ≡ names_outside count self.now }
    {
        match self {
            End::Go(a) => is_past(*a, count),
            End::Branch(_, a, b) => is_past(*a, count) || is_past(*b, count),
            End::Switch(_, cases) => lead_past(cases.as_slice(), count),
            End::Return | End::Leave(_) => false,
        }
    }
}

/// A case leads to a node that isn't below the count.
#[tactic(auto, using(crate::proofs::Named::any_case))]
fn lead_past(cases: &[Case], count: usize) -> bool
    ensures { result ≡ list_any (λ n. nat_le count n) (map (λ c. c.to) cases.now) }
{
    cases.iter().any(|c| is_past(c.to, count))
}

/// A node isn't below the count.
fn is_past(n: NodeId, count: usize) -> bool
    ensures { result ≡ nat_le count n }
{
    n.0 as usize >= count
}
