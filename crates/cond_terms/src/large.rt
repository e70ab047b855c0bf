//! Terms of many literals.

ghost use Rattle.std.specs.Prelude.{◌≡◌, ◌+◌, ◌<◌, ◌↔◌, IsTrue, MatchOption};
ghost use Rattle.cond_terms.specs.Terms.{literals};

use crate::term::Term;

/// How many more literals there is room for after a term, if there is room for it.
fn room_after(t: &Term, room: u8) -> Option<u8>
    ensures { MatchOption result (room < literals t.now) (λ left. left + literals t.now ≡ room) }
{
    match t {
        Term::True => Some(room),
        Term::False => Some(room),
        Term::Lit(_) => room.checked_sub(1),
        Term::Not(a) => room_after(a.get(), room),
        Term::And(a, b) => room_after(b.get(), room_after(a.get(), room)?),
        Term::Or(a, b) => room_after(b.get(), room_after(a.get(), room)?),
    }
}

/// Whether a term has more than 64 literals.
pub(crate) fn is_large(t: &Term) -> bool
    ensures { IsTrue result ↔ (64 < literals t.now) }
{
    room_after(t, 64).is_none()
}
