//! What is counted of a range.

ghost use Rattle.std.specs.Prelude.{◌≡◌, IfOk, IfErr};
ghost use Rattle.flow_graph.specs.Place.{HasNoText};
ghost use Rattle.drill_lines.specs.Counts.{HasCountsIn, IsAccepted, counts_with, nothing};

use crate::statements::{Counted, count};
use c_syntax::CFun;
use dream_engine::{Form, decompile_fun};
use elf_image::{Image, Range};
use flow_graph::{FlowFault, discover};
use graph_order::components;
use std::alloc::{AllocError, Global};

/// What is counted of a range.
#[derive(Clone, Copy, Debug, PartialEq, Eq)]
pub struct Counts {
    /// 1 where no place is named, else 0.
    pub accepted: u64,
    /// The components of the graph that is discovered of it.
    pub components: u64,
    /// The locals of its function that select where a loop goes on.
    pub selectors: u64,
    /// The calls of its function.
    pub ext: u64,
    /// The stores of its function.
    pub stores: u64,
}

impl Counts {
    // What is counted of a range that is refused.
    fn nothing() -> Counts
        ensures { result ≡ nothing }
    {
        Counts {
            accepted: 0,
            components: 0,
            selectors: 0,
            ext: 0,
            stores: 0,
        }
    }
}

// The counts of a range with so many components, and of its function.
fn counts_with_parts(parts: u64, f: &CFun) -> Result<Counts, AllocError>
    ensures { IfOk result (λ c. c ≡ counts_with parts f.now) }
{
    Ok(Counts {
        accepted: 1,
        components: parts,
        selectors: u64::from(f.selectors),
        ext: count(Counted::Calls, f.body.as_slice())?,
        stores: count(Counted::Stores, f.body.as_slice())?,
    })
}

// The counts of a range where no place is named.
fn accepted_counts(alloc: Global, m: &Image, r: &Range) -> Result<Counts, FlowFault>
    ensures ok { IfOk result (IsAccepted m.now r.now) }
    ensures err { IfErr result (HasNoText m.now r.now) }
{
    let found = discover(alloc, m, r)?;
    let parts = components(alloc, &found.graph)?;
    let f = decompile_fun(alloc, m, r, Form::Structured)?;
    let counts = counts_with_parts(parts.len() as u64, &f)?;
    Ok(counts)
}

/// The counts of a range of an image.
pub fn counts_of(alloc: Global, m: &Image, r: &Range) -> Result<Counts, AllocError>
    ensures { IfOk result (HasCountsIn m.now r.now) }
{
    match accepted_counts(alloc, m, r) {
        Ok(counts) => Ok(counts),
        Err(FlowFault::Outside(_place)) => Ok(Counts::nothing()),
        Err(FlowFault::Memory) => Err(AllocError),
    }
}
