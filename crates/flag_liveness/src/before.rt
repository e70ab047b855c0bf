//! What is live before a statement.

ghost use Rattle.std.specs.Prelude.{◌≡◌, ℕ, Bool, not, ◌||◌, ◌&&◌, IfOk, OnOk};
ghost use Rattle.std.specs.Ordering.{nat_cmp};
ghost use Rattle.std.specs.BTreeSet as set;
ghost use Rattle.flow_passes.specs.Uses.{is_register, is_flag};
ghost use Rattle.flag_liveness.specs.Before.{is_unseen, live_before};
ghost use Rattle.flag_liveness.specs.Within.{names_within, Agree, GoesBack};

use crate::names::is_itself;
use crate::row::Row;
use crate::seen::Seen;
use micro_ir::Stmt;
use std::alloc::AllocError;
use std::collections::BTreeSet;

impl Seen {
    /// Goes back over a statement. The answer is whether nobody sees it.
    pub fn pass(&mut self, s: &Stmt, across: &BTreeSet<u32>) -> Result<bool, AllocError>
        ensures unseen { IfOk result (λ b. b ≡ is_unseen s.now (names_within (set.contains nat_cmp across.now) self.old)) }
        ensures names { OnOk result (Agree (names_within (set.contains nat_cmp across.now) self.new) (live_before s.now (names_within (set.contains nat_cmp across.now) self.old))) }
    {
        if self.is_unseen(s, across) {
            Ok(true)
        } else {
            self.go_back(s)?;
            Ok(false)
        }
    }

    /// Whether nobody sees a statement.
    fn is_unseen(&self, s: &Stmt, across: &BTreeSet<u32>) -> bool
        ensures { result ≡ is_unseen s.now (names_within (set.contains nat_cmp across.now) self.now) }
    {
        match s {
            Stmt::Set(m, e) => !self.has(*m, across) || is_itself(*m, e),
            Stmt::Load(_, _, _) | Stmt::Store(_, _, _) | Stmt::Ext(_) | Stmt::Trap(_, _) => false,
        }
    }

    /// Goes back over a statement that somebody sees.
    pub fn go_back(&mut self, s: &Stmt) -> Result<(), AllocError>
        ensures { OnOk result (GoesBack s.now self.old self.new) }
    {
        match s {
            Stmt::Set(m, e) => {
                self.set(*m, false)?;
                self.add_word(e)?;
                Ok(())
            }
            Stmt::Load(m, _, e) => {
                self.set(*m, false)?;
                self.add_word(e)?;
                Ok(())
            }
            Stmt::Store(_, e, f) => {
                self.add_word(e)?;
                self.add_word(f)?;
                Ok(())
            }
            Stmt::Ext(e) => {
                self.call();
                self.add_word(e)?;
                Ok(())
            }
            Stmt::Trap(_, e) => {
                self.add_word(e)?;
                Ok(())
            }
        }
    }

    /// Goes back over a call, which reads the registers, and sets them and the flags.
    fn call(&mut self)
        ensures { (across : ℕ → Bool) → Agree (names_within across self.new) (λ n. is_register n || (names_within across self.old n && not (is_register n || is_flag n))) }
    {
        self.row = Row::registers();
    }
}
