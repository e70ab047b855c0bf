//! A block as far as words are put in place.

ghost use Rattle.std.specs.Prelude.{◌≡◌, ◌<◌, ◌++◌, [], ◌∷◌, length, slice_get, remove, Some, true, IsTrue, OnOk, IfOk};
ghost use Rattle.micro_ir.specs.declared.flow.Stmt.TheVariants as stmt;
ghost use Rattle.micro_ir.specs.Rule.{is_flow_target};
ghost use Rattle.expr_fold.specs.Delayed.{is_delayed, none_reads, without, are_flags};
ghost use Rattle.expr_fold.specs.Follows.{Waits, Takes, TakesInto};

use crate::delayed::Delayed;
use crate::{fits, loads, placed, said};
use dream_words::{Name, Width};
use flow_passes::{is_flag, same_name, word_reads};
use micro_ir::{Expr, Stmt};
use sqlite_items::Items;
use std::alloc::{AllocError, Global};

/// The deepest that a Word or Cond of a flow nests.
pub const DEPTH: u32 = 64;

/// The new statements so far, and the sets that are delayed, the oldest first.
#[derive(Drop)]
pub struct Folding {
    pub done: Items<Stmt>,
    pub delayed: Vec<Delayed>,
}

/// No delayed word reads a name.
fn none_reads(delayed: &[Delayed], n: Name) -> bool
    ensures { result ≡ none_reads delayed.now n }
{
    for d in delayed {
        if word_reads(&d.word, n) {
            return false;
        }
    }
    true
}

/// Only flags are delayed.
fn are_flags(delayed: &[Delayed]) -> bool
    ensures { result ≡ are_flags delayed.now }
{
    for d in delayed {
        if !is_flag(d.name) {
            return false;
        }
    }
    true
}

impl Folding {
    /// Nothing is done, and nothing is delayed.
    pub fn new(alloc: Global) -> Folding
        ensures done { result.done ≡ [] }
        ensures delayed { result.delayed.items ≡ [] }
    {
        Folding {
            done: Items::new(alloc),
            delayed: Vec::new(alloc),
        }
    }

    /// Does a statement.
    fn perform(&mut self, s: Stmt) -> Result<(), AllocError>
        ensures done { OnOk result (self.new.done ≡ self.old.done ++ s ∷ []) }
        ensures delayed { self.new.delayed.items ≡ self.old.delayed.items }
    {
        self.done.push(s)
    }

    /// Delays a set.
    fn delay(&mut self, d: Delayed) -> Result<(), AllocError>
        ensures done { self.new.done ≡ self.old.done }
        ensures delayed { OnOk result (self.new.delayed.items ≡ self.old.delayed.items ++ d ∷ []) }
    {
        self.delayed.push(d)?;
        Ok(())
    }

    /// Takes a delayed set out.
    fn take_out(&mut self, at: usize) -> Delayed
        requires { at < length self.old.delayed.items }
        ensures item { slice_get self.old.delayed.items at ≡ Some result }
        ensures done { self.new.done ≡ self.old.done }
        ensures delayed { self.new.delayed.items ≡ remove self.old.delayed.items at }
    {
        self.delayed.remove(at)
    }

    /// Drops the delayed sets of a name.
    fn forget(&mut self, n: Name)
        ensures delayed { self.new.delayed.items ≡ without n self.old.delayed.items }
        ensures done { self.new.done ≡ self.old.done }
    {
        self.delayed.retain(|d| !same_name(d.name, n));
    }

    /// Does a delayed set now. The other delayed words say by its name what they said by its word; where one of them reads
    /// the name's old word elsewhere, it is delayed on.
    pub fn set_at(&mut self, alloc: Global, at: usize) -> Result<(), AllocError>
        requires { at < length self.old.delayed.items }
        ensures { OnOk result (Waits self.old.done self.old.delayed.items self.new.done self.new.delayed.items) }
    {
        let d = self.take_out(at);
        match said::all_said(alloc, &d, &self.delayed)? {
            Some(delayed) => {
                self.delayed = delayed;
                let Delayed { name, word } = d;
                self.perform(Stmt::Set(name, word))?;
                Ok(())
            }
            None => {
                self.delay(d)?;
                Ok(())
            }
        }
    }

    /// Takes a set, which is delayed, or dropped where it sets a name to itself. False where its word would nest too deep.
    fn take_set(&mut self, alloc: Global, n: Name, e: &Expr) -> Result<bool, AllocError>
        ensures { IfOk result (λ b. IsTrue b → Takes (stmt.Set n e.now) self.old.done self.old.delayed.items self.new.done self.new.delayed.items) }
    {
        let word = placed::word(alloc, &self.delayed, e)?;
        if !fits::word_fits(&word, DEPTH) {
            return Ok(false);
        }
        self.forget(n);
        if loads::is_name(&word, n) {
            return Ok(true);
        }
        self.delay(Delayed { name: n, word })?;
        Ok(true)
    }

    /// Takes a load. False where its word would nest too deep, or a delayed word reads its name.
    fn take_load(
        &mut self,
        alloc: Global,
        n: Name,
        width: Width,
        e: &Expr,
    ) -> Result<bool, AllocError>
        ensures { IfOk result (λ b. IsTrue b → Takes (stmt.Load n width e.now) self.old.done self.old.delayed.items self.new.done self.new.delayed.items) }
    {
        let word = placed::word(alloc, &self.delayed, e)?;
        if !fits::word_fits(&word, DEPTH) {
            return Ok(false);
        }
        self.forget(n);
        if !none_reads(&self.delayed, n) {
            return Ok(false);
        }
        self.perform(Stmt::Load(n, width, word))?;
        Ok(true)
    }

    /// Takes a load into a register that isn't seen after it: its name is set to the register, which is delayed. False where its
    /// word would nest too deep, or a delayed word reads the register.
    pub fn take_load_into(
        &mut self,
        alloc: Global,
        t: Name,
        width: Width,
        e: &Expr,
        r: Name,
    ) -> Result<bool, AllocError>
        requires { IsTrue (is_flow_target r) }
        ensures { IfOk result (λ b. IsTrue b → TakesInto (stmt.Load t width e.now) r self.old.done self.old.delayed.items self.new.done self.new.delayed.items) }
    {
        let word = placed::word(alloc, &self.delayed, e)?;
        if !fits::word_fits(&word, DEPTH) {
            return Ok(false);
        }
        self.forget(t);
        self.forget(r);
        if !none_reads(&self.delayed, r) {
            return Ok(false);
        }
        self.perform(Stmt::Load(r, width, word))?;
        self.delay(Delayed {
            name: t,
            word: Expr::Name(r),
        })?;
        Ok(true)
    }

    /// Takes a store. False where a word would nest too deep.
    fn take_store(
        &mut self,
        alloc: Global,
        width: Width,
        e: &Expr,
        f: &Expr,
    ) -> Result<bool, AllocError>
        ensures { IfOk result (λ b. IsTrue b → Takes (stmt.Store width e.now f.now) self.old.done self.old.delayed.items self.new.done self.new.delayed.items) }
    {
        let place = placed::word(alloc, &self.delayed, e)?;
        let word = placed::word(alloc, &self.delayed, f)?;
        if !fits::word_fits(&place, DEPTH) {
            return Ok(false);
        }
        if !fits::word_fits(&word, DEPTH) {
            return Ok(false);
        }
        self.perform(Stmt::Store(width, place, word))?;
        Ok(true)
    }

    /// Takes a call, after which nothing is delayed. False where its word would nest too deep, or more than flags are
    /// delayed.
    fn take_call(&mut self, alloc: Global, e: &Expr) -> Result<bool, AllocError>
        ensures { IfOk result (λ b. IsTrue b → Takes (stmt.Ext e.now) self.old.done self.old.delayed.items self.new.done self.new.delayed.items) }
    {
        let word = placed::word(alloc, &self.delayed, e)?;
        if !fits::word_fits(&word, DEPTH) {
            return Ok(false);
        }
        if !are_flags(&self.delayed) {
            return Ok(false);
        }
        self.delayed = Vec::new(alloc);
        self.perform(Stmt::Ext(word))?;
        Ok(true)
    }

    /// Takes a fault. False where its word would nest too deep.
    fn take_trap(&mut self, alloc: Global, vector: u32, e: &Expr) -> Result<bool, AllocError>
        ensures { IfOk result (λ b. IsTrue b → Takes (stmt.Trap vector e.now) self.old.done self.old.delayed.items self.new.done self.new.delayed.items) }
    {
        let word = placed::word(alloc, &self.delayed, e)?;
        if !fits::word_fits(&word, DEPTH) {
            return Ok(false);
        }
        self.perform(Stmt::Trap(vector, word))?;
        Ok(true)
    }

    /// Takes a statement with delayed words in place. False where that can't be.
    pub fn take(&mut self, alloc: Global, s: &Stmt) -> Result<bool, AllocError>
        ensures { IfOk result (λ b. IsTrue b → Takes s.now self.old.done self.old.delayed.items self.new.done self.new.delayed.items) }
    {
        match s {
            Stmt::Set(n, e) => self.take_set(alloc, *n, e),
            Stmt::Load(n, width, e) => self.take_load(alloc, *n, *width, e),
            Stmt::Store(width, e, f) => self.take_store(alloc, *width, e, f),
            Stmt::Ext(e) => self.take_call(alloc, e),
            Stmt::Trap(vector, e) => self.take_trap(alloc, *vector, e),
        }
    }
}
