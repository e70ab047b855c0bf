//! What may be about to be entered.

ghost use Rattle.std.specs.Prelude.{◌≡◌, IfOk, ◌++◌};
ghost use Rattle.flow_plans.specs.Known.{told, without, picked_known, allows_any, none_known, entry_of, common_all, known_in, only, put_all, fade_all, pick_all, owing, behind};
ghost use Rattle.flow_plans.specs.Checked.{all_are, is_covered, all_covered, all_clear, all_heads, head_in, is_loop};

use crate::known;
use crate::plan::{Entry, Value, Way};
use dream_words::Name;
use graph_order::NodeId;
use sqlite_items::Items;
use std::alloc::{AllocError, Global};

/// An entry with what is known.
fn entry_of(owes: bool, node: NodeId, known: Items<Value>) -> Entry
    ensures { result ≡ entry_of owes node known }
{
    Entry { owes, node, known }
}

/// The same entry.
fn copied(alloc: Global, e: &Entry) -> Result<Entry, AllocError>
    ensures { IfOk result (λ r. r ≡ e.now) }
{
    Ok(Entry {
        owes: e.owes,
        node: e.node,
        known: Items::from_slice(alloc, e.known.as_slice())?,
    })
}

/// The same entries.
pub(crate) fn all_copied(alloc: Global, entries: &[Entry]) -> Result<Items<Entry>, AllocError>
    ensures { IfOk result (λ all. all ≡ entries.now) }
{
    let mut all = Items::new(alloc);
    for e in entries {
        all.push(copied(alloc, e)?)?;
    }
    Ok(all)
}

/// What is known there and in each entry.
fn common_all(
    alloc: Global,
    known: Items<Value>,
    entries: &[Entry],
) -> Result<Items<Value>, AllocError>
    ensures { IfOk result (λ all. all ≡ common_all known entries.now) }
{
    let mut all = known;
    for e in entries {
        all = known::common(alloc, all.as_slice(), e.known.as_slice())?;
    }
    Ok(all)
}

/// What is known in each entry.
pub(crate) fn known_in(alloc: Global, entries: &[Entry]) -> Result<Items<Value>, AllocError>
    ensures { IfOk result (λ all. all ≡ known_in entries.now) }
{
    match entries {
        [] => Ok(Items::new(alloc)),
        [first, rest @ ..] => {
            let known = Items::from_slice(alloc, first.known.as_slice())?;
            common_all(alloc, known, rest)
        }
    }
}

/// The entries where one of the values may be the variable's.
pub(crate) fn allowing(
    alloc: Global,
    values: &[Value],
    entries: &[Entry],
) -> Result<Items<Entry>, AllocError>
    ensures { IfOk result (λ all. all ≡ only (allows_any values.now) entries.now) }
{
    let mut all = Items::new(alloc);
    for e in entries {
        if known::allows_any(values, e.known.as_slice()) {
            all.push(copied(alloc, e)?)?;
        }
    }
    Ok(all)
}

/// The entries where none of the values is known.
pub(crate) fn missing(
    alloc: Global,
    values: &[Value],
    entries: &[Entry],
) -> Result<Items<Entry>, AllocError>
    ensures { IfOk result (λ all. all ≡ only (none_known values.now) entries.now) }
{
    let mut all = Items::new(alloc);
    for e in entries {
        if known::none_known(values, e.known.as_slice()) {
            all.push(copied(alloc, e)?)?;
        }
    }
    Ok(all)
}

/// The entries after a variable is set.
pub(crate) fn put_all(
    alloc: Global,
    name: Name,
    value: u32,
    entries: &[Entry],
) -> Result<Items<Entry>, AllocError>
    ensures { IfOk result (λ all. all ≡ put_all name value entries.now) }
{
    let mut all = Items::new(alloc);
    for e in entries {
        let known = known::told(alloc, name, value, e.known.as_slice())?;
        all.push(entry_of(e.owes, e.node, known))?;
    }
    Ok(all)
}

/// The entries without what is known of a variable.
pub(crate) fn fade_all(
    alloc: Global,
    name: Name,
    entries: &[Entry],
) -> Result<Items<Entry>, AllocError>
    ensures { IfOk result (λ all. all ≡ fade_all name entries.now) }
{
    let mut all = Items::new(alloc);
    for e in entries {
        let known = known::without(alloc, name, e.known.as_slice())?;
        all.push(entry_of(e.owes, e.node, known))?;
    }
    Ok(all)
}

/// The entries after a variable is set by whether another one has its value.
pub(crate) fn pick_all(
    alloc: Global,
    way: Way,
    other: Value,
    entries: &[Entry],
) -> Result<Items<Entry>, AllocError>
    ensures { IfOk result (λ all. all ≡ pick_all way other entries.now) }
{
    let mut all = Items::new(alloc);
    for e in entries {
        let known = known::picked(alloc, way, other, e.known.as_slice())?;
        all.push(entry_of(e.owes, e.node, known))?;
    }
    Ok(all)
}

/// The entries with a turn owed.
pub(crate) fn owing(alloc: Global, entries: &[Entry]) -> Result<Items<Entry>, AllocError>
    ensures { IfOk result (λ all. all ≡ owing entries.now) }
{
    let mut all = Items::new(alloc);
    for e in entries {
        let known = Items::from_slice(alloc, e.known.as_slice())?;
        all.push(entry_of(true, e.node, known))?;
    }
    Ok(all)
}

/// The entries behind a plan: none where none stood before it.
pub(crate) fn behind(alloc: Global, before: &[Entry], after: Items<Entry>) -> Items<Entry>
    ensures { result ≡ behind before.now after }
{
    match before {
        [] => Items::new(alloc),
        [_, ..] => after,
    }
}

/// Whether each entry is the node's, with a turn owed only where it is a head.
pub(crate) fn all_are(head: bool, node: NodeId, entries: &[Entry]) -> bool
    ensures { result ≡ all_are head node entries.now }
{
    for e in entries {
        if e.node.0 != node.0 || (e.owes && !head) {
            return false;
        }
    }
    true
}

/// Whether the entry is among these, where no more is known.
fn is_covered(e: &Entry, among: &[Entry]) -> bool
    ensures { result ≡ is_covered e.now among.now }
{
    for f in among {
        if e.owes == f.owes
            && e.node.0 == f.node.0
            && known::knows(f.known.as_slice(), e.known.as_slice())
        {
            return true;
        }
    }
    false
}

/// Whether each entry is among these, where no more is known.
pub(crate) fn all_covered(entries: &[Entry], among: &[Entry]) -> bool
    ensures { result ≡ all_covered entries.now among.now }
{
    for e in entries {
        if !is_covered(e, among) {
            return false;
        }
    }
    true
}

/// Whether no turn is owed.
pub(crate) fn all_clear(entries: &[Entry]) -> bool
    ensures { result ≡ all_clear entries.now }
{
    for e in entries {
        if e.owes {
            return false;
        }
    }
    true
}

/// Whether a node is a head.
pub(crate) fn is_head(heads: &[bool], node: NodeId) -> bool
    ensures { result ≡ head_in heads.now node }
{
    match heads.get(node.0 as usize) {
        None => false,
        Some(head) => *head,
    }
}

/// Whether each entry is that of a head.
pub(crate) fn all_heads(heads: &[bool], entries: &[Entry]) -> bool
    ensures { result ≡ all_heads (head_in heads.now) entries.now }
{
    for e in entries {
        if !is_head(heads, e.node) {
            return false;
        }
    }
    true
}

/// Whether a loop may begin at these entries: it has one of its turns before each, each is that of a
/// head, and none owes a turn there, nor where the loop is left.
pub(crate) fn is_loop(heads: &[bool], begins: &[Entry], ends: &[Entry], before: &[Entry]) -> bool
    ensures { result ≡ is_loop (head_in heads.now) begins.now ends.now before.now }
{
    all_covered(before, begins) && all_heads(heads, begins) && all_clear(begins) && all_clear(ends)
}
