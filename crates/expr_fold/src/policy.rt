//! Which sets are delayed, and for how long. Each choice is right; these are the ones that leave few and short statements.

ghost use Rattle.std.specs.Prelude.{IsTrue, OnOk, IfOk};
ghost use Rattle.expr_fold.specs.Follows.{Waits, Takes, TakesInto};
ghost use Rattle.micro_ir.specs.Rule.{is_flow_target};
ghost use Rattle.micro_ir.specs.declared.flow.Stmt.TheVariants as stmt;

use crate::delayed::Delayed;
use crate::folding::Folding;
use crate::order::{has, is_spoilt, set_chosen};
use crate::{ends, fits, placed, uses};
use c_syntax::CBin;
use dream_words::{Name, Width};
use flag_liveness::Live;
use flow_passes::{cond_reads, is_flag, is_register, same_name, word_reads};
use micro_ir::{End, Expr, Stmt};
use std::alloc::{AllocError, Global};

/// How many sets are delayed at most.
const MOST_DELAYED: usize = 20;

/// How many parts a word has at most that stands in place.
const LARGEST: u32 = 60;

/// How deep a word nests at most that stands in place, so that what it stands in is no deeper than a flow allows.
const DEEPEST: u32 = 40;

/// How many parts a small word has at most.
const SMALL: u32 = 2;

/// ESP, which is set as late as it may be: what is pushed and popped is named by its old word.
const TOP: Name = Name::Reg(4);

/// The names whose delayed words read a name.
fn readers(alloc: Global, delayed: &[Delayed], n: Name) -> Result<Vec<Name>, AllocError> {
    let mut names = Vec::new(alloc);
    for d in delayed {
        if !same_name(d.name, n) && word_reads(&d.word, n) {
            names.push(d.name)?;
        }
    }
    Ok(names)
}

/// The names, but for ESP, whose delayed words read a name and can't be said after a set of it.
fn spoilt_readers(
    alloc: Global,
    delayed: &[Delayed],
    n: Name,
    e: &Expr,
) -> Result<Vec<Name>, AllocError> {
    let names = readers(alloc, delayed, n)?;
    if names.is_empty() {
        return Ok(names);
    }
    let word = placed::word(alloc, delayed, e)?;
    let set = Delayed { name: n, word };
    let mut spoilt = Vec::new(alloc);
    for d in delayed {
        if d.name != TOP && has(&names, d.name) && is_spoilt(alloc, &set, &d.word)? {
            spoilt.push(d.name)?;
        }
    }
    Ok(spoilt)
}

/// Another delayed word reads a name.
fn is_read(delayed: &[Delayed], n: Name) -> bool {
    for d in delayed {
        if !same_name(d.name, n) && word_reads(&d.word, n) {
            return true;
        }
    }
    false
}

/// The delayed names that aren't flags.
fn unflagged(alloc: Global, delayed: &[Delayed]) -> Result<Vec<Name>, AllocError> {
    let mut names = Vec::new(alloc);
    for d in delayed {
        if !is_flag(d.name) {
            names.push(d.name)?;
        }
    }
    Ok(names)
}

/// A word is too large or too deep to stand in place.
fn is_large(e: &Expr) -> bool {
    uses::word_size(e) > LARGEST || !fits::word_fits(e, DEEPEST)
}

/// The delayed names with large words that a word reads.
fn large_in(alloc: Global, delayed: &[Delayed], e: &Expr) -> Result<Vec<Name>, AllocError> {
    let mut names = Vec::new(alloc);
    for d in delayed {
        if is_large(&d.word) && word_reads(e, d.name) {
            names.push(d.name)?;
        }
    }
    Ok(names)
}

/// The names to be set before a statement is taken.
fn before(alloc: Global, delayed: &[Delayed], s: &Stmt) -> Result<Vec<Name>, AllocError> {
    match s {
        Stmt::Set(n, e) => spoilt_readers(alloc, delayed, *n, e),
        Stmt::Load(n, _, _) => readers(alloc, delayed, *n),
        Stmt::Store(_, e, _) => large_in(alloc, delayed, e),
        Stmt::Ext(_) => unflagged(alloc, delayed),
        Stmt::Trap(_, e) => large_in(alloc, delayed, e),
    }
}

/// A word is a name, plus and minus numbers.
#[cycle(offset)]
fn is_offset(e: &Expr) -> bool {
    match e {
        Expr::Name(_) => true,
        Expr::Bin(CBin::Add, a, b) => is_number(b.get()) && is_offset(a.get()),
        Expr::Bin(CBin::Sub, a, b) => is_number(b.get()) && is_offset(a.get()),
        _ => false,
    }
}

/// A word is a number.
fn is_number(e: &Expr) -> bool {
    match e {
        Expr::Num(_) => true,
        _ => false,
    }
}

/// A set of a name to a word is done at once, where the next statements are given.
fn is_done_now(n: Name, word: &Expr, rest: &[Stmt]) -> bool {
    if is_large(word) {
        return true;
    }
    if uses::word_size(word) <= SMALL || is_offset(word) || is_flag(n) {
        return false;
    }
    is_register(n) || uses::reads_ahead(rest, n) > 1
}

/// The names to be set after a statement was taken.
fn after(
    alloc: Global,
    delayed: &[Delayed],
    s: &Stmt,
    rest: &[Stmt],
) -> Result<Vec<Name>, AllocError> {
    let mut names = Vec::new(alloc);
    if let Stmt::Set(n, _) = s
        && let Some(d) = delayed.last()
        && (*n != TOP && is_read(delayed, *n) || is_done_now(*n, &d.word, rest))
    {
        names.push(*n)?;
    }
    if delayed.len() > MOST_DELAYED
        && let Some(d) = delayed.first()
    {
        names.push(d.name)?;
    }
    Ok(names)
}

/// Takes a statement, where the next ones are given. False where that can't be.
pub(crate) fn step(
    folding: &mut Folding,
    alloc: Global,
    s: &Stmt,
    rest: &[Stmt],
) -> Result<bool, AllocError>
    ensures { IfOk result (λ b. IsTrue b → Takes s.now folding.old.done folding.old.delayed.items folding.new.done folding.new.delayed.items) }
{
    let first = before(alloc, &folding.delayed, s)?;
    set_chosen(folding, alloc, first)?;
    if !folding.take(alloc, s)? {
        return Ok(false);
    }
    let last = after(alloc, &folding.delayed, s, rest)?;
    set_chosen(folding, alloc, last)?;
    Ok(true)
}

/// Takes a load into a register that isn't seen after it, and says its name by the register. False where that can't be.
pub(crate) fn step_into(
    folding: &mut Folding,
    alloc: Global,
    t: Name,
    width: Width,
    e: &Expr,
    r: Name,
) -> Result<bool, AllocError>
    requires { IsTrue (is_flow_target r) }
    ensures { IfOk result (λ b. IsTrue b → TakesInto (stmt.Load t width e.now) r folding.old.done folding.old.delayed.items folding.new.done folding.new.delayed.items) }
{
    let first = readers(alloc, &folding.delayed, r)?;
    set_chosen(folding, alloc, first)?;
    let taken = folding.take_load_into(alloc, t, width, e, r)?;
    Ok(taken)
}

/// An end reads a name.
fn end_reads(e: &End, n: Name) -> bool {
    match e {
        End::Go(_) => false,
        End::Branch(t, _, _) => cond_reads(t, n),
        End::Switch(e, _) => word_reads(e, n),
        End::Return => false,
        End::Leave(e) => word_reads(e, n),
    }
}

/// The names to be set before an end: those that may be seen after it, and those with large words that it reads.
fn before_end(
    alloc: Global,
    live: &Live,
    delayed: &[Delayed],
    e: &End,
) -> Result<Vec<Name>, AllocError> {
    let mut names = Vec::new(alloc);
    for d in delayed {
        if ends::is_seen_after(live, e, d.name) || is_large(&d.word) && end_reads(e, d.name) {
            names.push(d.name)?;
        }
    }
    Ok(names)
}

/// Does what is delayed and may be seen after an end.
pub(crate) fn close(
    folding: &mut Folding,
    alloc: Global,
    live: &Live,
    e: &End,
) -> Result<(), AllocError>
    ensures { OnOk result (Waits folding.old.done folding.old.delayed.items folding.new.done folding.new.delayed.items) }
{
    let chosen = before_end(alloc, live, &folding.delayed, e)?;
    set_chosen(folding, alloc, chosen)?;
    Ok(())
}
