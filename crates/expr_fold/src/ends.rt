//! What may be seen after an end.

ghost use Rattle.std.specs.Prelude.{◌≡◌, map};
ghost use Rattle.std.specs.List.{list_any};
ghost use Rattle.flag_liveness.specs.Lives.{live_of};
ghost use Rattle.expr_fold.specs.Ends.{seen_after, none_seen_after};

use crate::delayed::Delayed;
use dream_words::Name;
use flag_liveness::Live;
use flow_passes::is_register;
use micro_ir::{Case, End};

/// Whether a name is live at the node of a case.
fn is_live_in(live: &Live, cases: &[Case], n: Name) -> bool
    ensures { result ≡ list_any (λ k. live_of live.now k n) (map (λ c. c.to) cases.now) }
{
    for c in cases {
        if live.is_live(c.to, n) {
            return true;
        }
    }
    false
}

/// Whether a name may be seen after an end: it is live where the end leads, or is a register where the end leaves the
/// function.
pub(crate) fn is_seen_after(live: &Live, e: &End, n: Name) -> bool
    ensures { result ≡ seen_after e.now (live_of live.now) n }
{
    match e {
        End::Go(a) => live.is_live(*a, n),
        End::Branch(_, a, b) => live.is_live(*a, n) || live.is_live(*b, n),
        End::Switch(_, cases) => is_live_in(live, cases.as_slice(), n),
        End::Return => is_register(n),
        End::Leave(_) => is_register(n),
    }
}

/// No delayed name may be seen after an end.
pub(crate) fn none_seen_after(live: &Live, e: &End, delayed: &[Delayed]) -> bool
    ensures { result ≡ none_seen_after e.now (live_of live.now) delayed.now }
{
    for d in delayed {
        if is_seen_after(live, e, d.name) {
            return false;
        }
    }
    true
}
