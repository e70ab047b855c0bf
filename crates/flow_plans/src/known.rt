//! What is known of variables.

ghost use Rattle.std.specs.Prelude.{◌≡◌, IfOk};
ghost use Rattle.flow_plans.specs.Known.{is_added, is_test, are_tests, without, told, is_known, allows, allows_any, none_known, knows, common, picked_known};

use crate::plan::{Value, Way};
use dream_words::Name;
use flow_passes::same_name;
use sqlite_items::Items;
use std::alloc::{AllocError, Global};

/// Whether a tree may add the variable.
pub(crate) fn is_added(n: Name) -> bool
    ensures { result ≡ is_added n }
{
    matches!(n, Name::B(_) | Name::S(_))
}

/// Whether the name is a local for tests.
fn is_test(n: Name) -> bool
    ensures { result ≡ is_test n }
{
    matches!(n, Name::B(_))
}

/// Whether each value is one of a local for tests.
pub(crate) fn are_tests(values: &[Value]) -> bool
    ensures { result ≡ are_tests values.now }
{
    for a in values {
        if !is_test(a.name) {
            return false;
        }
    }
    true
}

/// Whether the value is known.
fn is_known(a: Value, known: &[Value]) -> bool
    ensures { result ≡ is_known a known.now }
{
    for b in known {
        if same_name(b.name, a.name) && b.value == a.value {
            return true;
        }
    }
    false
}

/// Whether no other value of the variable is known.
fn allows(a: Value, known: &[Value]) -> bool
    ensures { result ≡ allows a known.now }
{
    for b in known {
        if same_name(b.name, a.name) && b.value != a.value {
            return false;
        }
    }
    true
}

/// Whether one of the values may be the variable's.
pub(crate) fn allows_any(values: &[Value], known: &[Value]) -> bool
    ensures { result ≡ allows_any values.now known.now }
{
    for a in values {
        if allows(*a, known) {
            return true;
        }
    }
    false
}

/// Whether none of the values is known.
pub(crate) fn none_known(values: &[Value], known: &[Value]) -> bool
    ensures { result ≡ none_known values.now known.now }
{
    for a in values {
        if is_known(*a, known) {
            return false;
        }
    }
    true
}

/// Whether each of the first values is known by the second ones.
pub(crate) fn knows(first: &[Value], second: &[Value]) -> bool
    ensures { result ≡ knows first.now second.now }
{
    for a in first {
        if !is_known(*a, second) {
            return false;
        }
    }
    true
}

/// What both know.
pub(crate) fn common(
    alloc: Global,
    known: &[Value],
    other: &[Value],
) -> Result<Items<Value>, AllocError>
    ensures { IfOk result (λ both. both ≡ common known.now other.now) }
{
    let mut both = Items::new(alloc);
    for a in known {
        if is_known(*a, other) {
            both.push(*a)?;
        }
    }
    Ok(both)
}

/// What is known of other variables.
pub(crate) fn without(
    alloc: Global,
    name: Name,
    known: &[Value],
) -> Result<Items<Value>, AllocError>
    ensures { IfOk result (λ rest. rest ≡ without name known.now) }
{
    let mut rest = Items::new(alloc);
    for a in known {
        if !same_name(a.name, name) {
            rest.push(*a)?;
        }
    }
    Ok(rest)
}

/// What is known after a variable is set.
pub(crate) fn told(
    alloc: Global,
    name: Name,
    value: u32,
    known: &[Value],
) -> Result<Items<Value>, AllocError>
    ensures { IfOk result (λ all. all ≡ told name value known.now) }
{
    let rest = without(alloc, name, known)?;
    let mut all = Items::new(alloc);
    all.push(Value { name, value })?;
    all.append(rest)?;
    Ok(all)
}

/// What is known after a variable is set by whether another one has its value.
pub(crate) fn picked(
    alloc: Global,
    way: Way,
    other: Value,
    known: &[Value],
) -> Result<Items<Value>, AllocError>
    ensures { IfOk result (λ all. all ≡ picked_known way other known.now) }
{
    if is_known(other, known) {
        told(alloc, way.name, way.on_true, known)
    } else if allows(other, known) {
        without(alloc, way.name, known)
    } else {
        told(alloc, way.name, way.on_false, known)
    }
}
