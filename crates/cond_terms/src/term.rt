//! Terms as plain data.

ghost use Rattle.std.specs.Prelude.{◌≡◌, ◌<◌, ◌^◌, ◌↔◌, IfOk, IsTrue};
ghost use Rattle.cond_terms.specs.declared.term.Term.TheVariants as term;
ghost use Rattle.cond_terms.specs.Terms.{literals};

use sqlite_items::Boxed;
use std::alloc::{AllocError, Global};

/// A literal over one variable, by its number.
#[derive(Clone, Copy)]
pub enum Lit {
    /// The variable's word isn't 0.
    Bool(u32),
    /// The variable, and the word that it is equal to.
    Eq(u32, u32),
}

/// A condition over variables.
#[derive(Drop)]
pub enum Term {
    True,
    False,
    Lit(Lit),
    Not(Boxed<Term>),
    And(Boxed<Term>, Boxed<Term>),
    Or(Boxed<Term>, Boxed<Term>),
}

/// The number of literals in a term, each counted where it stands.
pub fn size(t: &Term) -> u64
    requires { literals t.now < 2 ^ 63 }
    ensures { result ≡ literals t.now }
{
    match t {
        Term::True => 0,
        Term::False => 0,
        Term::Lit(_) => 1,
        Term::Not(a) => size(a.get()),
        Term::And(a, b) => size(a.get()) + size(b.get()),
        Term::Or(a, b) => size(a.get()) + size(b.get()),
    }
}

/// A term equal to this one.
pub fn copy(alloc: Global, t: &Term) -> Result<Term, AllocError>
    ensures { IfOk result (λ made. made ≡ t.now) }
{
    match t {
        Term::True => Ok(Term::True),
        Term::False => Ok(Term::False),
        Term::Lit(l) => Ok(Term::Lit(*l)),
        Term::Not(a) => Ok(Term::Not(Boxed::new(alloc, copy(alloc, a.get())?)?)),
        Term::And(a, b) => {
            let a = Boxed::new(alloc, copy(alloc, a.get())?)?;
            let b = Boxed::new(alloc, copy(alloc, b.get())?)?;
            Ok(Term::And(a, b))
        }
        Term::Or(a, b) => {
            let a = Boxed::new(alloc, copy(alloc, a.get())?)?;
            let b = Boxed::new(alloc, copy(alloc, b.get())?)?;
            Ok(Term::Or(a, b))
        }
    }
}

/// Whether two literals are the same.
pub(crate) fn same_lit(a: Lit, b: Lit) -> bool
    ensures { IsTrue result ↔ (a ≡ b) }
{
    match (a, b) {
        (Lit::Bool(x), Lit::Bool(y)) => x == y,
        (Lit::Eq(x, n), Lit::Eq(y, m)) => x == y && n == m,
        _ => false,
    }
}

/// Whether two terms are the same, part by part. Terms of the same truth may differ.
pub fn same_term(a: &Term, b: &Term) -> bool
    ensures { IsTrue result ↔ (a.now ≡ b.now) }
{
    match (a, b) {
        (Term::True, Term::True) => true,
        (Term::False, Term::False) => true,
        (Term::Lit(l), Term::Lit(m)) => same_lit(*l, *m),
        (Term::Not(s), Term::Not(t)) => same_term(s.get(), t.get()),
        (Term::And(s, p), Term::And(t, q)) => {
            same_term(s.get(), t.get()) && same_term(p.get(), q.get())
        }
        (Term::Or(s, p), Term::Or(t, q)) => {
            same_term(s.get(), t.get()) && same_term(p.get(), q.get())
        }
        _ => false,
    }
}

/// Whether a term is False itself.
pub(crate) fn is_false(t: &Term) -> bool
    ensures { IsTrue result ↔ (t.now ≡ term.False) }
{
    matches!(t, Term::False)
}

/// Whether a term is this literal.
pub(crate) fn is_literal(t: &Term, l: Lit) -> bool
    ensures { IsTrue result ↔ (t.now ≡ term.Lit l) }
{
    match t {
        Term::Lit(m) => same_lit(l, *m),
        _ => false,
    }
}

/// Whether a term is True itself.
pub(crate) fn is_true(t: &Term) -> bool
    ensures { IsTrue result ↔ (t.now ≡ term.True) }
{
    matches!(t, Term::True)
}
