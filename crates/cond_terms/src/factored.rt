//! Terms whose common conjuncts are taken out.

ghost use Rattle.std.specs.Prelude.{◌≡◌, ◌≤◌, ◌↔◌, false, IsTrue, IfOk};
ghost use Rattle.cond_terms.specs.Terms.{Valuation, term_truth, literals};
ghost use Rattle.cond_terms.specs.Exclusion.{is_and, IsConjunct};
ghost use Rattle.cond_terms.specs.Factored.{IsFactored, IsBeside, IsParted, IsFactoredOr, IsFactoredForm};

use crate::term::{Term, is_true, same_term};
use sqlite_items::Boxed;
use std::alloc::{AllocError, Global};

/// Whether a term is a conjunct of another.
fn has_conjunct(t: &Term, c: &Term) -> bool
    ensures { IsTrue result ↔ IsConjunct c.now t.now }
{
    match t {
        Term::And(a, b) => has_conjunct(a.get(), c) || has_conjunct(b.get(), c),
        _ => same_term(c, t),
    }
}

/// The And of two terms, where a True adds nothing.
fn beside(alloc: Global, a: Term, b: Term) -> Result<Term, AllocError>
    ensures { IfOk result (λ made. IsBeside a b made) }
{
    if is_true(&a) {
        return Ok(b);
    }
    if is_true(&b) {
        return Ok(a);
    }
    Ok(Term::And(Boxed::new(alloc, a)?, Boxed::new(alloc, b)?))
}

/// The conjuncts of a term, parted into those that another term has too and its own; where there
/// are none, True stands for them.
#[derive(Drop)]
struct Parted {
    shared: Term,
    own: Term,
}

/// Parts the conjuncts of a term by whether `other` has them too.
fn part(alloc: Global, t: Term, other: &Term) -> Result<Parted, AllocError>
    ensures { IfOk result (λ made. IsParted t other.now made.shared made.own) }
{
    match t {
        Term::And(a, b) => {
            let Parted { shared: x, own: p } = part(alloc, a.into_inner(), other)?;
            let Parted { shared: y, own: q } = part(alloc, b.into_inner(), other)?;
            let shared = beside(alloc, x, y)?;
            let own = beside(alloc, p, q)?;
            Ok(Parted { shared, own })
        }
        t => Ok(part_one(t, other)),
    }
}

/// The same of a term that is its only conjunct.
fn part_one(t: Term, other: &Term) -> Parted
    requires { is_and t ≡ false }
    ensures { IsParted t other.now result.shared result.own }
{
    if has_conjunct(other, &t) {
        Parted {
            shared: t,
            own: Term::True,
        }
    } else {
        Parted {
            shared: Term::True,
            own: t,
        }
    }
}

/// The Or of two terms, their common conjuncts taken out of it.
fn factored_or(alloc: Global, a: Term, b: Term) -> Result<Term, AllocError>
    ensures { IfOk result (λ made. IsFactoredOr a b made) }
{
    let Parted { shared, own: first } = part(alloc, a, &b)?;
    let second = part(alloc, b, &shared)?.own;
    if is_true(&first) || is_true(&second) {
        return Ok(shared);
    }
    let first = Boxed::new(alloc, first)?;
    let second = Boxed::new(alloc, second)?;
    beside(alloc, shared, Term::Or(first, second))
}

/// The term, factored from its parts on.
fn factored(alloc: Global, t: &Term) -> Result<Term, AllocError>
    ensures { IfOk result (λ made. IsFactoredForm t.now made) }
{
    match t {
        Term::True => Ok(Term::True),
        Term::False => Ok(Term::False),
        Term::Lit(l) => Ok(Term::Lit(*l)),
        Term::Not(a) => Ok(Term::Not(Boxed::new(alloc, factored(alloc, a.get())?)?)),
        Term::And(a, b) => {
            let a = Boxed::new(alloc, factored(alloc, a.get())?)?;
            let b = Boxed::new(alloc, factored(alloc, b.get())?)?;
            Ok(Term::And(a, b))
        }
        Term::Or(a, b) => {
            let a = factored(alloc, a.get())?;
            let b = factored(alloc, b.get())?;
            factored_or(alloc, a, b)
        }
    }
}

/// A term of the same truth, in which the parts of no Or share a conjunct: what they share is
/// taken out of it.
pub fn factor(alloc: Global, t: Term) -> Result<Term, AllocError>
    ensures same_truth { IfOk result (λ made. (v : Valuation) → term_truth made v ≡ term_truth t v) }
    ensures no_larger { IfOk result (λ made. literals made ≤ literals t) }
    ensures factored { IfOk result (λ made. IsFactored made) }
{
    factored(alloc, &t)
}
