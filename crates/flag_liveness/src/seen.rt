//! The names that are live at a place within a block.

ghost use Rattle.std.specs.Prelude.{◌≡◌, ℕ, Bool, true, false, not, ◌||◌, ◌&&◌, OnOk, IsTrue, nat_eq, if◌then◌else◌};
ghost use Rattle.std.specs.Ordering.{nat_cmp};
ghost use Rattle.std.specs.BTreeSet as set;
ghost use Rattle.flow_passes.specs.Uses.{same_name, word_reads, cond_reads, is_register};
ghost use Rattle.flag_liveness.specs.Rows.{row_names, SameRow};
ghost use Rattle.flag_liveness.specs.Within.{names_within, temps_within, row_or_temps, Agree, Adds};

use crate::row::Row;
use dream_words::Name;
use micro_ir::{Cond, Expr};
use std::alloc::{AllocError, Global};
use std::collections::BTreeSet;

/// The names that are live at a place within a block.
#[derive(Drop)]
pub struct Seen {
    pub row: Row,
    /// The temporaries that are read before they are set.
    pub live: BTreeSet<u32>,
    /// Temporaries that are set.
    pub dead: BTreeSet<u32>,
    /// Whether the block goes on to another one, so that temporaries may live across it.
    pub goes_on: bool,
}

impl Seen {
    /// What is live where just the registers and flags of a row are, and, where the block goes on, the
    /// temporaries across blocks.
    pub fn new(alloc: Global, row: Row, goes_on: bool) -> Seen
        ensures { (across : ℕ → Bool) → Agree (names_within across result) (row_or_temps (row_names row) (λ n. goes_on && across n)) }
    {
        Seen {
            row,
            live: BTreeSet::new(alloc),
            dead: BTreeSet::new(alloc),
            goes_on,
        }
    }

    /// Whether a name is live, given the temporaries that live across blocks.
    pub fn has(&self, n: Name, across: &BTreeSet<u32>) -> bool
        ensures { result ≡ names_within (set.contains nat_cmp across.now) self.now n }
    {
        match n {
            Name::T(k) => self.has_temp(k, across),
            _ => self.row.has(n),
        }
    }

    /// Whether a temporary is live.
    fn has_temp(&self, k: u32, across: &BTreeSet<u32>) -> bool
        ensures { result ≡ temps_within (set.contains nat_cmp across.now) self.now k }
    {
        self.live.contains(&k) || (self.goes_on && across.contains(&k) && !self.dead.contains(&k))
    }

    /// Makes a temporary live, or not.
    fn set_temp(&mut self, k: u32, live: bool) -> Result<(), AllocError>
        ensures row { self.new.row ≡ self.old.row }
        ensures temps { OnOk result ((across : ℕ → Bool) (j : ℕ) → temps_within across self.new j ≡ (if nat_eq k j then live else temps_within across self.old j)) }
    {
        if live {
            self.live.insert(k)?;
        } else {
            self.live.remove(&k);
            self.dead.insert(k)?;
        }
        Ok(())
    }

    /// Makes a name live, or not.
    pub fn set(&mut self, n: Name, live: bool) -> Result<(), AllocError>
        ensures { OnOk result ((across : ℕ → Bool) → Agree (names_within across self.new) (λ m. if same_name n m then live else names_within across self.old m)) }
    {
        match n {
            Name::T(k) => self.set_temp(k, live),
            _ => {
                self.row.set(n, live);
                Ok(())
            }
        }
    }

    /// Makes a name live.
    fn add_name(&mut self, n: Name) -> Result<(), AllocError>
        ensures { OnOk result (Adds (same_name n) self.old self.new) }
    {
        self.set(n, true)?;
        Ok(())
    }

    /// Makes the names live that a Word reads.
    #[cycle(add)]
    pub fn add_word(&mut self, e: &Expr) -> Result<(), AllocError>
        ensures { OnOk result (Adds (word_reads e.now) self.old self.new) }
    {
        match e {
            Expr::Num(_) => Ok(()),
            Expr::Name(n) => {
                self.add_name(*n)?;
                Ok(())
            }
            Expr::Not(a) => {
                self.add_word(a.get())?;
                Ok(())
            }
            Expr::Bin(_, a, b) => {
                self.add_word(a.get())?;
                self.add_word(b.get())?;
                Ok(())
            }
            Expr::Fn1(_, a) => {
                self.add_word(a.get())?;
                Ok(())
            }
            Expr::Fn2(_, a, b) => {
                self.add_word(a.get())?;
                self.add_word(b.get())?;
                Ok(())
            }
            Expr::Fn3(_, a, b, c) => {
                self.add_word(a.get())?;
                self.add_word(b.get())?;
                self.add_word(c.get())?;
                Ok(())
            }
            Expr::Pick(t, a, b) => {
                self.add_cond(t.get())?;
                self.add_word(a.get())?;
                self.add_word(b.get())?;
                Ok(())
            }
        }
    }

    /// Makes the names live that a Cond reads.
    #[cycle(add)]
    pub fn add_cond(&mut self, t: &Cond) -> Result<(), AllocError>
        ensures { OnOk result (Adds (cond_reads t.now) self.old self.new) }
    {
        match t {
            Cond::Cmp(_, a, b) => {
                self.add_word(a)?;
                self.add_word(b)?;
                Ok(())
            }
            Cond::Not(t) => {
                self.add_cond(t.get())?;
                Ok(())
            }
            Cond::And(t, u) => {
                self.add_cond(t.get())?;
                self.add_cond(u.get())?;
                Ok(())
            }
            Cond::Or(t, u) => {
                self.add_cond(t.get())?;
                self.add_cond(u.get())?;
                Ok(())
            }
        }
    }
}
