//! Words that are put into what follows directly: where a set of a temporary stands directly before its only read.

ghost use Rattle.std.specs.Prelude.{◌≡◌, map, OnOk, IfOk, Some, None, if◌then◌else◌};
ghost use Rattle.std.specs.Bool.{OnFalse};
ghost use Rattle.micro_ir.specs.Rule.{IsGiven};
ghost use Rattle.flow_passes.specs.Uses.{end_reads};
ghost use Rattle.flow_passes.specs.Keeps.{Keeps};
ghost use Rattle.expr_fold.specs.Placed.{placed_stmt};
ghost use Rattle.expr_fold.specs.Fits.{stmt_fits};
ghost use Rattle.expr_fold.specs.Counted.{once_of};
ghost use Rattle.expr_fold.specs.Moved.{stmt_with, end_with, first_with, rest_of, set_before, stmt_before, moved_block};
ghost use Rattle.expr_fold.specs.Direct.{NoneStandsDirectlyBefore};

use crate::blocks::{end_fits, placed_end};
use crate::counts::{Reads, count_reads};
use crate::delayed::Delayed;
use crate::folding::DEPTH;
use crate::loads::stmt_reads;
use crate::{fits, placed};
use c_syntax::CExpr;
use dream_words::Name;
use flow_passes::{cond_reads, is_register, word_reads};
use micro_ir::{Block, End, Flow, Stmt};
use sqlite_items::Items;
use std::alloc::{AllocError, Global};
use std::slice;

/// A statement with delayed words in place.
fn placed_stmt(alloc: Global, delayed: &[Delayed], s: &Stmt) -> Result<Stmt, AllocError>
    ensures { IfOk result (λ r. r ≡ placed_stmt delayed.now s.now) }
{
    match s {
        Stmt::Set(n, e) => Ok(Stmt::Set(*n, placed::word(alloc, delayed, e)?)),
        Stmt::Load(n, width, e) => Ok(Stmt::Load(*n, *width, placed::word(alloc, delayed, e)?)),
        Stmt::Store(width, e, f) => {
            let place = placed::word(alloc, delayed, e)?;
            let word = placed::word(alloc, delayed, f)?;
            Ok(Stmt::Store(*width, place, word))
        }
        Stmt::Ext(e) => Ok(Stmt::Ext(placed::word(alloc, delayed, e)?)),
        Stmt::Trap(vector, e) => Ok(Stmt::Trap(*vector, placed::word(alloc, delayed, e)?)),
    }
}

/// The words of a statement aren't too deep.
fn stmt_fits(s: &Stmt) -> bool
    ensures { result ≡ stmt_fits s.now }
{
    match s {
        Stmt::Set(_, e) => fits::word_fits(e, DEPTH),
        Stmt::Load(_, _, e) => fits::word_fits(e, DEPTH),
        Stmt::Store(_, e, f) => fits::word_fits(e, DEPTH) && fits::word_fits(f, DEPTH),
        Stmt::Ext(e) => fits::word_fits(e, DEPTH),
        Stmt::Trap(_, e) => fits::word_fits(e, DEPTH),
    }
}

/// Whether an end reads a name.
fn end_reads(e: &End, n: Name) -> bool
    ensures { result ≡ end_reads e.now n }
{
    match e {
        End::Go(_) => false,
        End::Branch(t, _, _) => cond_reads(t, n),
        End::Switch(e, _) => word_reads(e, n),
        End::Return => is_register(n),
        End::Leave(e) => is_register(n) || word_reads(e, n),
    }
}

/// A statement with a word in the place of its name. None where it doesn't read the name, or would nest too deep.
fn stmt_with(alloc: Global, d: &Delayed, s: &Stmt) -> Result<Option<Stmt>, AllocError>
    ensures { IfOk result (λ o. o ≡ stmt_with d.now s.now) }
{
    if !stmt_reads(s, d.name) {
        return Ok(None);
    }
    let placed = placed_stmt(alloc, slice::from_ref(d), s)?;
    if !stmt_fits(&placed) {
        return Ok(None);
    }
    Ok(Some(placed))
}

/// An end with a word in the place of its name. None where it doesn't read the name, or would nest too deep.
fn end_with(alloc: Global, d: &Delayed, e: &End) -> Result<Option<End>, AllocError>
    ensures { IfOk result (λ o. o ≡ end_with d.now e.now) }
{
    if !end_reads(e, d.name) {
        return Ok(None);
    }
    let placed = placed_end(alloc, slice::from_ref(d), e)?;
    if !end_fits(&placed) {
        return Ok(None);
    }
    Ok(Some(placed))
}

/// What stands from a place of a block on: statements, the last one first, and the end.
#[derive(Drop)]
pub struct Tail {
    pub back: Vec<Stmt>,
    pub end: End,
}

impl Tail {
    /// Puts a word in the place of its name in what comes first. False where that doesn't read the name, or would nest too
    /// deep.
    fn place(&mut self, alloc: Global, d: &Delayed) -> Result<bool, AllocError>
        ensures placed { IfOk result (λ is. first_with d.now (rest_of self.old).0 (rest_of self.old).1 ≡ (if is then Some (rest_of self.new) else None)) }
        ensures same { IfOk result (λ is. OnFalse is (rest_of self.new ≡ rest_of self.old)) }
    {
        let Some(s) = self.back.pop() else {
            return self.place_in_end(alloc, d);
        };
        match stmt_with(alloc, d, &s)? {
            Some(placed) => {
                drop(s);
                self.back.push(placed)?;
                Ok(true)
            }
            None => {
                self.back.push(s)?;
                Ok(false)
            }
        }
    }

    /// The same where no statement is left.
    fn place_in_end(&mut self, alloc: Global, d: &Delayed) -> Result<bool, AllocError>
        ensures back { self.new.back.items ≡ self.old.back.items }
        ensures placed { IfOk result (λ is. end_with d.now self.old.end ≡ (if is then Some self.new.end else None)) }
        ensures same { IfOk result (λ is. OnFalse is (self.new.end ≡ self.old.end)) }
    {
        match end_with(alloc, d, &self.end)? {
            Some(placed) => {
                self.end = placed;
                Ok(true)
            }
            None => Ok(false),
        }
    }

    /// Takes a set that stands before it. Its word is put in place where that can be and the name is read at most once.
    fn take_set(
        &mut self,
        alloc: Global,
        reads: &Reads,
        name: Name,
        word: CExpr,
    ) -> Result<(), AllocError>
        ensures { OnOk result (rest_of self.new ≡ set_before (once_of reads.now) (record { name = name; word = word }) (rest_of self.old)) }
    {
        let d = Delayed { name, word };
        if reads.is_once(name) && self.place(alloc, &d)? {
            return Ok(());
        }
        let Delayed { name, word } = d;
        self.back.push(Stmt::Set(name, word))?;
        Ok(())
    }

    /// Takes a statement that stands before it.
    fn take(&mut self, alloc: Global, reads: &Reads, s: Stmt) -> Result<(), AllocError>
        ensures { OnOk result (rest_of self.new ≡ stmt_before (once_of reads.now) s (rest_of self.old)) }
    {
        match s {
            Stmt::Set(n, e) => {
                self.take_set(alloc, reads, n, e)?;
                Ok(())
            }
            s => {
                self.back.push(s)?;
                Ok(())
            }
        }
    }
}

/// A block in which words are put into what follows directly.
fn moved_block(alloc: Global, reads: &Reads, b: Block) -> Result<Block, AllocError>
    ensures { IfOk result (λ c. c ≡ moved_block (once_of reads.now) b) }
{
    let Block { at, stmts, end } = b;
    let mut rest = stmts;
    let mut tail = Tail {
        back: Vec::new(alloc),
        end,
    };
    while let Some(s) = rest.pop() {
        tail.take(alloc, reads, s)?;
    }
    let Tail { back, end } = tail;
    let mut stmts = back;
    stmts.reverse();
    Ok(Block {
        at,
        stmts: Items::from_vec(stmts),
        end,
    })
}

/// Blocks in which words are put into what follows directly.
fn moved_blocks(
    alloc: Global,
    reads: &Reads,
    blocks: Items<Block>,
) -> Result<Items<Block>, AllocError>
    ensures { IfOk result (λ r. r ≡ map (moved_block (once_of reads.now)) blocks) }
{
    let mut rest = blocks;
    let mut made = Vec::new(alloc);
    while let Some(b) = rest.pop() {
        made.push(moved_block(alloc, reads, b)?)?;
    }
    made.reverse();
    Ok(Items::from_vec(made))
}

/// A flow in which no set of a temporary stands directly before its only read, but where the word would nest too deep there.
pub(crate) fn moved(alloc: Global, f: Flow) -> Result<Flow, AllocError>
    requires { IsGiven f }
    ensures given { IfOk result (λ g. IsGiven g) }
    ensures keeps { IfOk result (λ g. Keeps f g) }
    ensures direct { IfOk result (λ g. NoneStandsDirectlyBefore g) }
{
    let Flow { entry, blocks } = f;
    let reads = count_reads(alloc, blocks.as_slice())?;
    let blocks = moved_blocks(alloc, &reads, blocks)?;
    Ok(Flow { entry, blocks })
}
