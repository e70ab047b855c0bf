//! Each call on a few terms.

use cond_terms::{Lit, Term, copy, exclusive, factor, same_term, simplify, size};
use sqlite_items::Boxed;
use std::alloc::{AllocError, Global};
use std::test::Fail;

/// The variable is set.
fn set(variable: u32) -> Term {
    Term::Lit(Lit::Bool(variable))
}

/// The variable is the word.
fn equal(variable: u32, word: u32) -> Term {
    Term::Lit(Lit::Eq(variable, word))
}

fn not(alloc: Global, a: Term) -> Result<Term, AllocError> {
    Ok(Term::Not(Boxed::new(alloc, a)?))
}

fn and(alloc: Global, a: Term, b: Term) -> Result<Term, AllocError> {
    Ok(Term::And(Boxed::new(alloc, a)?, Boxed::new(alloc, b)?))
}

fn or(alloc: Global, a: Term, b: Term) -> Result<Term, AllocError> {
    Ok(Term::Or(Boxed::new(alloc, a)?, Boxed::new(alloc, b)?))
}

/// Variable 1 is set, and variable 2 isn't the given word.
fn sample(alloc: Global, word: u32) -> Result<Term, AllocError> {
    and(alloc, set(1), not(alloc, equal(2, word))?)
}

#[test]
fn terms_are_counted_copied_and_compared(rt: HostRuntime) -> Result<(), Fail> {
    let term = sample(rt.alloc(), 5)?;
    assert_eq!(rt; size(&Term::False), 0);
    let made = copy(rt.alloc(), &term)?;
    assert_eq!(rt; same_term(&term, &made), true);
    assert_eq!(rt; same_term(&term, &sample(rt.alloc(), 6)?), false);
    Ok(())
}

#[test]
fn terms_exclude_each_other_by_their_conjuncts(rt: HostRuntime) -> Result<(), Fail> {
    let alloc = rt.alloc();
    let four = and(alloc, set(2), equal(1, 4))?;
    assert_eq!(rt; exclusive(&equal(1, 3), &four), true);
    assert_eq!(rt; exclusive(&equal(1, 4), &four), false);
    assert_eq!(rt; exclusive(&equal(3, 3), &four), false);
    assert_eq!(rt; exclusive(&four, &not(alloc, set(2))?), true);
    assert_eq!(rt; exclusive(&four, &Term::False), true);
    assert_eq!(rt; exclusive(&set(1), &set(2)), false);
    Ok(())
}

#[test]
fn terms_are_made_simple(rt: HostRuntime) -> Result<(), Fail> {
    let alloc = rt.alloc();
    let twice = and(alloc, set(1), not(alloc, not(alloc, set(1))?)?)?;
    assert_eq!(rt; same_term(&simplify(alloc, twice)?, &set(1)), true);
    let either = or(alloc, not(alloc, set(1))?, set(1))?;
    assert_eq!(rt; same_term(&simplify(alloc, either)?, &Term::True), true);
    let inside = and(
        alloc,
        or(alloc, Term::False, set(1))?,
        not(alloc, Term::False)?,
    )?;
    assert_eq!(rt; same_term(&simplify(alloc, inside)?, &set(1)), true);
    Ok(())
}

#[test]
fn common_conjuncts_are_taken_out(rt: HostRuntime) -> Result<(), Fail> {
    let alloc = rt.alloc();
    let whole = or(
        alloc,
        and(alloc, set(1), set(2))?,
        and(alloc, set(1), set(3))?,
    )?;
    let wanted = and(alloc, set(1), or(alloc, set(2), set(3))?)?;
    assert_eq!(rt; same_term(&factor(alloc, whole)?, &wanted), true);
    let absorbed = or(alloc, set(1), and(alloc, set(1), set(3))?)?;
    assert_eq!(rt; same_term(&factor(alloc, absorbed)?, &set(1)), true);
    Ok(())
}
