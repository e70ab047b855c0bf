//! When two terms exclude each other.

ghost use Rattle.std.specs.Prelude.{◌≡◌, ◌↔◌, IsTrue, true};
ghost use Rattle.cond_terms.specs.declared.term.Term.TheVariants as term;
ghost use Rattle.cond_terms.specs.Terms.{Valuation, term_truth};
ghost use Rattle.cond_terms.specs.Exclusion.{AskDifferently, Contradict, IsContradicted, HaveContradiction, AreExclusive};

use crate::term::{Lit, Term, is_false, is_literal};

/// Whether two literals ask for different values of one variable.
fn ask_differently(a: Lit, b: Lit) -> bool
    ensures { IsTrue result ↔ AskDifferently a b }
{
    match (a, b) {
        (Lit::Eq(x, n), Lit::Eq(y, m)) => x == y && n != m,
        _ => false,
    }
}

/// Whether one of the terms is a literal and the other its Not, or they are two values of one
/// variable.
fn contradict(a: &Term, b: &Term) -> bool
    ensures { IsTrue result ↔ Contradict a.now b.now }
{
    match (a, b) {
        (Term::Lit(l), Term::Not(t)) => is_literal(t.get(), *l),
        (Term::Not(t), Term::Lit(l)) => is_literal(t.get(), *l),
        (Term::Lit(l), Term::Lit(m)) => ask_differently(*l, *m),
        _ => false,
    }
}

/// Whether a conjunct of the term contradicts this one.
fn is_contradicted(one: &Term, t: &Term) -> bool
    ensures { IsTrue result ↔ IsContradicted one.now t.now }
{
    match t {
        Term::And(a, b) => is_contradicted(one, a.get()) || is_contradicted(one, b.get()),
        _ => contradict(one, t),
    }
}

/// Whether a conjunct of the one and a conjunct of the other contradict each other.
fn have_contradiction(s: &Term, t: &Term) -> bool
    ensures { IsTrue result ↔ HaveContradiction s.now t.now }
{
    match s {
        Term::And(a, b) => have_contradiction(a.get(), t) || have_contradiction(b.get(), t),
        _ => is_contradicted(s, t),
    }
}

/// Whether two terms are seen to exclude each other: one of them is False, or a conjunct of the
/// one and a conjunct of the other are a literal and its Not, or two values of one variable.
pub fn exclusive(a: &Term, b: &Term) -> bool
    ensures seen { IsTrue result ↔ AreExclusive a.now b.now }
    ensures apart { IsTrue result → (v : Valuation) → term_truth a.now v ≡ true → term_truth b.now v ≡ true → ⊥ }
{
    is_false(a) || is_false(b) || have_contradiction(a, b)
}
