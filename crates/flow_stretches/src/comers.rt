//! Which reached nodes of a graph name a node.

ghost use Rattle.std.specs.Prelude.{◌≡◌, ◌<◌, ◌↔◌, ℕ, All, IfOk, length, nat_eq, if◌then◌else◌};
ghost use Rattle.std.specs.List.{list_any};
ghost use Rattle.graph_order.specs.Graph.{IsMarked, IsReached};
ghost use Rattle.flow_stretches.specs.Known.{with_comer, comers_at, AreComers, ComesTo};

use graph_order::{Graph, NodeId};
use std::alloc::{AllocError, Global};

/// Which nodes name a node: nobody, one alone, or several.
#[derive(Clone, Copy)]
pub(crate) enum Comers {
    Nobody,
    One(u32),
    Several,
}

/// The same, once a node names it.
fn with_comer(comers: Comers, k: u32) -> Comers
    ensures { result ≡ with_comer comers k }
{
    match comers {
        Comers::Nobody => Comers::One(k),
        Comers::One(j) => {
            if j == k {
                Comers::One(j)
            } else {
                Comers::Several
            }
        }
        Comers::Several => Comers::Several,
    }
}

/// A node comes to each of some targets.
fn note(k: u32, targets: &[NodeId], comers: &mut [Comers])
    requires { All (λ n. n < length comers.old) targets.now }
    ensures { (n : ℕ) → comers_at comers.new n ≡ (if list_any (λ t. nat_eq n t) targets.now then with_comer (comers_at comers.old n) k else comers_at comers.old n) }
{
    for &target in targets {
        let n = target.0 as usize;
        comers[n] = with_comer(comers[n], k);
    }
}

/// For each node in turn which reached nodes name it.
pub(crate) fn comers_in(
    alloc: Global,
    g: &Graph,
    reached: &[bool],
) -> Result<Vec<Comers>, AllocError>
    requires marks { length reached.now ≡ length g.now.succ }
    requires exact { (n : ℕ) → (IsMarked reached.now n ↔ IsReached g.now n) }
    ensures count { IfOk result (λ comers. length comers.items ≡ length g.now.succ) }
    ensures comes { IfOk result (λ comers. (n : ℕ) → AreComers (ComesTo g.now n) (comers_at comers.items n)) }
{
    let mut comers = vec![in alloc; Comers::Nobody; g.count() as usize]?;
    for k in 0..g.count() {
        if reached[k as usize] {
            note(k, g.succ(NodeId(k)), &mut comers);
        }
    }
    Ok(comers)
}
