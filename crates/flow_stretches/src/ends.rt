//! Ends of blocks that lead to one node, whatever is tested.

ghost use Rattle.std.specs.Prelude.{◌≡◌, nat_eq};
ghost use Rattle.std.specs.List.{list_all};
ghost use Rattle.flow_stretches.specs.Ends.{only_target, shared_target, straight};

use graph_order::NodeId;
use micro_ir::{Case, End};

/// The one node that an end leads to. A switch has none, whatever its cases are.
pub(crate) fn only_target(end: &End) -> Option<NodeId>
    ensures { result ≡ only_target end.now }
{
    match end {
        End::Go(a) => Some(*a),
        End::Branch(_, a, b) => { if a.0 == b.0 { Some(*a) } else { None } }
        End::Switch(..) | End::Return | End::Leave(_) => None,
    }
}

/// The node that all of some cases lead to, where there is a case.
fn shared_target(cases: &[Case]) -> Option<NodeId>
    ensures { result ≡ shared_target cases.now }
{
    let (first, others) = cases.split_first()?;
    if all_lead_to(others, first.to) {
        Some(first.to)
    } else {
        None
    }
}

/// All of some cases lead to a node.
fn all_lead_to(cases: &[Case], n: NodeId) -> bool
    ensures { result ≡ list_all (λ d. nat_eq d.to n) cases.now }
{
    cases.iter().all(|c| c.to.0 == n.0)
}

/// The end, which goes where it leads, whatever is tested.
pub(crate) fn straight(end: End) -> End
    ensures { result ≡ straight end }
{
    match end {
        End::Go(a) => End::Go(a),
        End::Branch(t, a, b) => {
            if a.0 == b.0 {
                End::Go(a)
            } else {
                End::Branch(t, a, b)
            }
        }
        End::Switch(e, cases) => match shared_target(cases.as_slice()) {
            Some(a) => End::Go(a),
            None => End::Switch(e, cases),
        },
        End::Return => End::Return,
        End::Leave(e) => End::Leave(e),
    }
}
