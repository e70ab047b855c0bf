//! The numbers that pieces have in a flow.

ghost use Rattle.std.specs.Prelude.{◌≡◌, ℕ, ◌+◌, ◌^◌, ◌<◌, nat_eq, Some, None, IfOk, OnOk, if◌then◌else◌};
ghost use Rattle.std.specs.HashMap.{get};
ghost use Rattle.range_flow.specs.Nodes.{total_of, number_from, or_else, first_by};

use crate::lifted::Lifted;
use std::alloc::{AllocError, Global};
use std::collections::HashMap;

/// The number of the first block at each address, and how many blocks there are.
#[derive(Drop)]
pub struct FirstNodes {
    firsts: HashMap<u32, u32>,
    count: u32,
}

// Notes the number of an address that has none.
fn note(firsts: &mut HashMap<u32, u32>, at: u32, number: u32) -> Result<(), AllocError>
    ensures { OnOk result ((a : ℕ) → get nat_eq firsts.new a ≡ or_else (get nat_eq firsts.old a) (if nat_eq a at then Some number else None)) }
{
    if !firsts.contains_key(&at) {
        firsts.insert(at, number)?;
    }
    Ok(())
}

impl FirstNodes {
    /// The numbers of what is in order.
    pub fn of(alloc: Global, all: &[Lifted]) -> Result<FirstNodes, AllocError>
        requires { total_of all.now < 2 ^ 32 }
        ensures firsts { IfOk result (λ n. (a : ℕ) → get nat_eq n.firsts a ≡ number_from 0 all.now a) }
        ensures count { IfOk result (λ n. n.count ≡ total_of all.now) }
    {
        let mut firsts = HashMap::new(alloc);
        let mut count = 0;
        for one in all {
            note(&mut firsts, one.at, count)?;
            count += one.blocks.len() as u32;
        }
        Ok(FirstNodes { firsts, count })
    }

    /// The number of the first block at an address, or the count where there is none.
    pub fn first(&self, a: u32) -> u32
        ensures { result ≡ first_by self.now a }
    {
        self.firsts.get(&a).copied().unwrap_or(self.count)
    }
}
