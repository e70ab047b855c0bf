//! Terms made as simple as their parts allow.

ghost use Rattle.std.specs.Prelude.{◌≡◌, ◌≤◌, ◌↔◌, ◌⊎◌, Bool, true, false, not, IsTrue, IfOk};
ghost use Rattle.cond_terms.specs.declared.term.Term.TheVariants as term;
ghost use Rattle.cond_terms.specs.Terms.{Valuation, term_truth, literals};
ghost use Rattle.cond_terms.specs.Simple.{constant, turned, IsSimple, IsJoined, IsSimplified};

use crate::term::{Lit, Term, is_literal, same_lit, same_term};
use sqlite_items::Boxed;
use std::alloc::{AllocError, Global};

/// True or False.
fn constant(value: bool) -> Term
    ensures { result ≡ constant value }
{
    if value { Term::True } else { Term::False }
}

/// Whether a term is this constant itself.
fn is_constant(t: &Term, value: bool) -> bool
    ensures { IsTrue result ↔ (t.now ≡ constant value) }
{
    match t {
        Term::True => value,
        Term::False => !value,
        _ => false,
    }
}

/// Whether `other` is the term, or where not `holds` its negation, with each Not pushed down to
/// the literals.
fn is_turned(t: &Term, holds: bool, other: &Term) -> bool
    ensures { IsTrue result ↔ (other.now ≡ turned t.now holds) }
{
    match (t, other) {
        (Term::Not(a), _) => is_turned(a.get(), !holds, other),
        (Term::True, _) => is_constant(other, holds),
        (Term::False, _) => is_constant(other, !holds),
        (Term::Lit(l), Term::Lit(m)) => holds && same_lit(*l, *m),
        (Term::Lit(l), Term::Not(u)) => !holds && is_literal(u.get(), *l),
        (Term::And(a, b), Term::And(x, y)) => {
            holds && is_turned(a.get(), holds, x.get()) && is_turned(b.get(), holds, y.get())
        }
        (Term::And(a, b), Term::Or(x, y)) => {
            !holds && is_turned(a.get(), holds, x.get()) && is_turned(b.get(), holds, y.get())
        }
        (Term::Or(a, b), Term::Or(x, y)) => {
            holds && is_turned(a.get(), holds, x.get()) && is_turned(b.get(), holds, y.get())
        }
        (Term::Or(a, b), Term::And(x, y)) => {
            !holds && is_turned(a.get(), holds, x.get()) && is_turned(b.get(), holds, y.get())
        }
        _ => false,
    }
}

/// Whether the first of two parts is what they make together: it decides alone, the second adds
/// nothing, or they are equal.
fn first_serves(all: bool, a: &Term, b: &Term) -> bool
    ensures { IsTrue result ↔ ((a.now ≡ constant (not all)) ⊎ ((b.now ≡ constant all) ⊎ (a.now ≡ b.now))) }
{
    is_constant(a, !all) || is_constant(b, all) || same_term(a, b)
}

/// Whether the second of two parts is what they make together.
fn second_serves(all: bool, a: &Term, b: &Term) -> bool
    ensures { IsTrue result ↔ ((a.now ≡ constant all) ⊎ (b.now ≡ constant (not all))) }
{
    is_constant(a, all) || is_constant(b, !all)
}

/// The And of two parts, or where not `all` their Or, made simple.
pub(crate) fn joined(alloc: Global, all: bool, a: Term, b: Term) -> Result<Term, AllocError>
    ensures { IfOk result (λ made. IsJoined all a b made) }
{
    if first_serves(all, &a, &b) {
        return Ok(a);
    }
    if second_serves(all, &a, &b) {
        return Ok(b);
    }
    if is_turned(&a, false, &b) {
        return Ok(constant(!all));
    }
    let a = Boxed::new(alloc, a)?;
    let b = Boxed::new(alloc, b)?;
    if all {
        Ok(Term::And(a, b))
    } else {
        Ok(Term::Or(a, b))
    }
}

/// The term, or where not `holds` its negation, made simple.
fn simplified(alloc: Global, t: &Term, holds: bool) -> Result<Term, AllocError>
    ensures { IfOk result (λ made. IsSimplified t.now holds made) }
{
    match t {
        Term::True => Ok(constant(holds)),
        Term::False => Ok(constant(!holds)),
        Term::Lit(l) => literal(alloc, *l, holds),
        Term::Not(a) => simplified(alloc, a.get(), !holds),
        Term::And(a, b) => {
            let a = simplified(alloc, a.get(), holds)?;
            let b = simplified(alloc, b.get(), holds)?;
            joined(alloc, holds, a, b)
        }
        Term::Or(a, b) => {
            let a = simplified(alloc, a.get(), holds)?;
            let b = simplified(alloc, b.get(), holds)?;
            joined(alloc, !holds, a, b)
        }
    }
}

/// A literal, or where not `holds` its Not.
fn literal(alloc: Global, l: Lit, holds: bool) -> Result<Term, AllocError>
    ensures { IfOk result (λ made. made ≡ turned (term.Lit l) holds) }
{
    if holds {
        Ok(Term::Lit(l))
    } else {
        Ok(Term::Not(Boxed::new(alloc, Term::Lit(l))?))
    }
}

/// A term of the same truth, made simple: True and False stand as the whole alone, Not on literals
/// alone, and no And and no Or has two parts that are equal or each other's negation.
pub fn simplify(alloc: Global, t: Term) -> Result<Term, AllocError>
    ensures same_truth { IfOk result (λ made. (v : Valuation) → term_truth made v ≡ term_truth t v) }
    ensures no_larger { IfOk result (λ made. literals made ≤ literals t) }
    ensures simple { IfOk result (λ made. IsSimple made) }
{
    simplified(alloc, &t, true)
}
