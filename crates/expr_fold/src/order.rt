//! The order in which delayed sets are done.

ghost use Rattle.std.specs.Prelude.{◌<◌, length, OnOk, IfOk, IfSome};
ghost use Rattle.expr_fold.specs.Follows.{Waits};

use crate::delayed::Delayed;
use crate::folding::Folding;
use crate::said::said;
use dream_words::Name;
use flow_passes::{same_name, word_reads};
use micro_ir::Expr;
use std::alloc::{AllocError, Global};

/// Names among some.
pub(crate) fn has(names: &[Name], n: Name) -> bool {
    for m in names {
        if same_name(*m, n) {
            return true;
        }
    }
    false
}

/// A word can't be said any more after a set: it reads the name's old word.
pub(crate) fn is_spoilt(alloc: Global, d: &Delayed, e: &Expr) -> Result<bool, AllocError> {
    if !word_reads(e, d.name) {
        return Ok(false);
    }
    Ok(said(alloc, d, e)?.is_none())
}

/// A word can't be said any more after the delayed sets of some names.
fn is_spoilt_by(
    alloc: Global,
    delayed: &[Delayed],
    names: &[Name],
    e: &Expr,
) -> Result<bool, AllocError> {
    for d in delayed {
        if has(names, d.name) && is_spoilt(alloc, d, e)? {
            return Ok(true);
        }
    }
    Ok(false)
}

/// Adds the names whose delayed words can't be said after the sets of those that are chosen. The answer is whether there
/// are more.
fn add_readers(
    alloc: Global,
    delayed: &[Delayed],
    chosen: &mut Vec<Name>,
) -> Result<bool, AllocError> {
    let mut more = false;
    for d in delayed {
        if !has(chosen, d.name) && is_spoilt_by(alloc, delayed, chosen, &d.word)? {
            chosen.push(d.name)?;
            more = true;
        }
    }
    Ok(more)
}

/// The names, and those whose delayed words have to be set before them, and so on.
fn with_readers(
    alloc: Global,
    delayed: &[Delayed],
    chosen: Vec<Name>,
) -> Result<Vec<Name>, AllocError> {
    let mut chosen = chosen;
    for _turn in 0..delayed.len() {
        if chosen.is_empty() || !add_readers(alloc, delayed, &mut chosen)? {
            return Ok(chosen);
        }
    }
    Ok(chosen)
}

/// Each other delayed word can be said after the set at a place.
fn is_free(alloc: Global, delayed: &[Delayed], at: usize, d: &Delayed) -> Result<bool, AllocError> {
    for (i, x) in delayed.iter().enumerate() {
        if i != at && is_spoilt(alloc, d, &x.word)? {
            return Ok(false);
        }
    }
    Ok(true)
}

/// The place of the oldest delayed set of some names after which each other delayed word can be said, temporaries after
/// all others, so that they stand where they are read; where there is none, the last.
fn next_chosen(
    alloc: Global,
    delayed: &[Delayed],
    chosen: &[Name],
) -> Result<Option<usize>, AllocError>
    ensures { IfOk result (λ o. IfSome o (λ at. at < length delayed.now)) }
{
    let mut last = None;
    let mut temporary = None;
    for (at, d) in delayed.iter().enumerate() {
        if has(chosen, d.name) {
            last = Some(at);
            if is_free(alloc, delayed, at, d)? {
                if !is_temporary(d.name) {
                    return Ok(Some(at));
                }
                if temporary.is_none() {
                    temporary = Some(at);
                }
            }
        }
    }
    match temporary {
        Some(at) => Ok(Some(at)),
        None => Ok(last),
    }
}

/// Whether a name is a temporary.
fn is_temporary(n: Name) -> bool {
    match n {
        Name::T(_) => true,
        _ => false,
    }
}

/// Does the delayed sets of some names, and of those that read them, the oldest first wherever that is possible.
pub(crate) fn set_chosen(
    folding: &mut Folding,
    alloc: Global,
    chosen: Vec<Name>,
) -> Result<(), AllocError>
    ensures { OnOk result (Waits folding.old.done folding.old.delayed.items folding.new.done folding.new.delayed.items) }
{
    let chosen = with_readers(alloc, &folding.delayed, chosen)?;
    for _turn in 0..folding.delayed.len() {
        let Some(at) = next_chosen(alloc, &folding.delayed, &chosen)? else {
            return Ok(());
        };
        folding.set_at(alloc, at)?;
    }
    Ok(())
}
