//! Tests of variables, as trees.

ghost use Rattle.std.specs.Prelude.{◌≡◌, IfOk};
ghost use Rattle.flow_plans.specs.Emitted.{gathered, number_of, has_value, or_any, any_of, two_ways, test_tree};

use crate::plan::Value;
use cond_terms::{Lit, Term};
use dream_words::Name;
use guarded::Tree;
use sqlite_items::{Boxed, Items};
use std::alloc::{AllocError, Global};

/// Trees one after another, as one tree.
pub(crate) fn gathered(trees: Items<Tree>) -> Tree
    ensures { result ≡ gathered trees }
{
    let mut trees = trees;
    if trees.len() == 1 {
        if let Some(only) = trees.pop() {
            return only;
        }
    }
    Tree::Seq(trees)
}

/// The number of a local for tests.
fn number_of(n: Name) -> u32
    ensures { result ≡ number_of n }
{
    match n {
        Name::B(v) => v,
        _ => 0,
    }
}

/// The variable has its value.
fn has_value(a: Value) -> Term
    ensures { result ≡ has_value a }
{
    Term::Lit(Lit::Eq(number_of(a.name), a.value))
}

/// The term, or one of the variables has its value.
fn or_any(alloc: Global, t: Term, values: &[Value]) -> Result<Term, AllocError>
    ensures { IfOk result (λ r. r ≡ or_any t values.now) }
{
    let mut all = t;
    for a in values {
        let one = Boxed::new(alloc, has_value(*a))?;
        all = Term::Or(Boxed::new(alloc, all)?, one);
    }
    Ok(all)
}

/// One of the variables has its value.
fn any_of(alloc: Global, values: &[Value]) -> Result<Term, AllocError>
    ensures { IfOk result (λ r. r ≡ any_of values.now) }
{
    match values {
        [] => Ok(Term::False),
        [first, rest @ ..] => or_any(alloc, has_value(*first), rest),
    }
}

/// One of two lists of trees, by a term. An empty one doesn't stand there.
fn two_ways(
    alloc: Global,
    t: Term,
    first: Items<Tree>,
    second: Items<Tree>,
) -> Result<Tree, AllocError>
    ensures { IfOk result (λ r. r ≡ two_ways t first second) }
{
    if first.is_empty() {
        let other = Term::Not(Boxed::new(alloc, t)?);
        Ok(Tree::If(other, Boxed::new(alloc, gathered(second))?, None))
    } else if second.is_empty() {
        Ok(Tree::If(t, Boxed::new(alloc, gathered(first))?, None))
    } else {
        let first = Boxed::new(alloc, gathered(first))?;
        let second = Boxed::new(alloc, gathered(second))?;
        Ok(Tree::If(t, first, Some(second)))
    }
}

/// A test by its values. That a variable is 0 is told the other way round: the variable isn't 0.
pub(crate) fn test_tree(
    alloc: Global,
    values: &[Value],
    first: Items<Tree>,
    second: Items<Tree>,
) -> Result<Tree, AllocError>
    ensures { IfOk result (λ r. r ≡ test_tree values.now first second) }
{
    match values {
        [a] if a.value == 0 => {
            let set = Term::Lit(Lit::Bool(number_of(a.name)));
            two_ways(alloc, set, second, first)
        }
        _ => two_ways(alloc, any_of(alloc, values)?, first, second),
    }
}
