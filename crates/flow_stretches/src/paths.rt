//! The nodes of stretches.

ghost use Rattle.std.specs.Prelude.{◌≡◌, ◌<◌, ◌^◌, ℕ, IfOk, length, map, take};
ghost use Rattle.graph_order.specs.Graph.{IsMarked};
ghost use Rattle.flow_stretches.specs.Known.{NextIn, IsPath, AreNext, ArePaths, marked_from, name_by};

use std::alloc::{AllocError, Global};

/// The nodes from one on, each followed by the next one.
fn path_from(alloc: Global, next: &[Option<usize>], first: usize) -> Result<Vec<usize>, AllocError>
    requires next { AreNext next.now }
    requires inside { first < length next.now }
    requires begins { (k : ℕ) → NextIn next.now k first → ⊥ }
    ensures { IfOk result (λ nodes. IsPath next.now first nodes.items) }
{
    let mut nodes = Vec::new(alloc);
    nodes.push(first)?;
    let mut last = first;
    while let Some(m) = next[last] {
        nodes.push(m)?;
        last = m;
    }
    Ok(nodes)
}

/// The stretches of the nodes that are marked as first ones, in order.
pub(crate) fn paths_in(
    alloc: Global,
    next: &[Option<usize>],
    firsts: &[bool],
) -> Result<Vec<Vec<usize>>, AllocError>
    requires next { AreNext next.now }
    requires count { length firsts.now ≡ length next.now }
    requires begin { (k n : ℕ) → IsMarked firsts.now n → NextIn next.now k n → ⊥ }
    ensures { IfOk result (λ paths. ArePaths next.now firsts.now (map (λ l. l.items) paths.items)) }
{
    let mut paths = Vec::new(alloc);
    for n in 0..firsts.len() {
        if firsts[n] {
            paths.push(path_from(alloc, next, n)?)?;
        }
    }
    Ok(paths)
}

/// For each node in turn how many first nodes come before it.
pub(crate) fn names_in(alloc: Global, firsts: &[bool]) -> Result<Vec<u32>, AllocError>
    requires { length firsts.now < 2 ^ 30 }
    ensures count { IfOk result (λ names. length names.items ≡ length firsts.now) }
    ensures value { IfOk result (λ names. (n : ℕ) → n < length firsts.now → name_by names.items n ≡ length (marked_from 0 (take n firsts.now))) }
{
    let mut names = Vec::new(alloc);
    let mut count = 0;
    for first in firsts {
        names.push(count)?;
        if *first {
            count += 1;
        }
    }
    Ok(names)
}
