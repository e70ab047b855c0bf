//! Which temporaries a flow reads, and which it reads more than once.

ghost use Rattle.std.specs.Prelude.{◌≡◌, ℕ, ◌+◌, OnOk, IfOk, if◌then◌else◌};
ghost use Rattle.std.specs.Ordering.{nat_cmp};
ghost use Rattle.std.specs.BTreeSet as set;
ghost use Rattle.flow_passes.specs.Uses.{same_name};
ghost use Rattle.expr_fold.specs.Counts.{count_in_word, count_in_cond, reads_of_stmt, reads_of_end, reads_of_rest, reads_of};
ghost use Rattle.expr_fold.specs.Counted.{Counted, Notes, once_of};

use dream_words::Name;
use micro_ir::{Block, Cond, End, Expr, Stmt};
use std::alloc::{AllocError, Global};
use std::collections::BTreeSet;

/// The temporaries that are read.
#[derive(Drop)]
pub struct Reads {
    /// Those that are read at least once.
    pub some: BTreeSet<u32>,
    /// Those that are read more than once.
    pub more: BTreeSet<u32>,
}

impl Reads {
    /// Nothing is read.
    fn new(alloc: Global) -> Reads
        ensures { Counted result (λ n. 0) }
    {
        Reads {
            some: BTreeSet::new(alloc),
            more: BTreeSet::new(alloc),
        }
    }

    /// Whether a name is a temporary that is read at most once.
    pub(crate) fn is_once(&self, n: Name) -> bool
        ensures { result ≡ once_of self.now n }
    {
        match n {
            Name::T(t) => !self.more.contains(&t),
            _ => false,
        }
    }

    /// Notes a read of a temporary.
    fn note_temp(&mut self, t: u32) -> Result<(), AllocError>
        ensures { OnOk result (Notes (λ n. if same_name (Name.T t) n then 1 else 0) self.old self.new) }
    {
        if self.some.insert(t)? {
            return Ok(());
        }
        self.more.insert(t)?;
        Ok(())
    }

    /// Notes a read of a name.
    fn note_name(&mut self, n: Name) -> Result<(), AllocError>
        ensures { OnOk result (Notes (λ m. if same_name n m then 1 else 0) self.old self.new) }
    {
        match n {
            Name::T(t) => self.note_temp(t),
            _ => Ok(()),
        }
    }

    /// Notes the reads of a Word.
    #[cycle(note)]
    fn note_word(&mut self, e: &Expr) -> Result<(), AllocError>
        ensures { OnOk result (Notes (count_in_word e.now) self.old self.new) }
    {
        match e {
            Expr::Num(_) => Ok(()),
            Expr::Name(n) => {
                self.note_name(*n)?;
                Ok(())
            }
            Expr::Not(a) => {
                self.note_word(a.get())?;
                Ok(())
            }
            Expr::Bin(_, a, b) => {
                self.note_word(a.get())?;
                self.note_word(b.get())?;
                Ok(())
            }
            Expr::Fn1(_, a) => {
                self.note_word(a.get())?;
                Ok(())
            }
            Expr::Fn2(_, a, b) => {
                self.note_word(a.get())?;
                self.note_word(b.get())?;
                Ok(())
            }
            Expr::Fn3(_, a, b, c) => {
                self.note_word(a.get())?;
                self.note_word(b.get())?;
                self.note_word(c.get())?;
                Ok(())
            }
            Expr::Pick(t, a, b) => {
                self.note_cond(t.get())?;
                self.note_word(a.get())?;
                self.note_word(b.get())?;
                Ok(())
            }
        }
    }

    /// Notes the reads of a Cond.
    #[cycle(note)]
    fn note_cond(&mut self, t: &Cond) -> Result<(), AllocError>
        ensures { OnOk result (Notes (count_in_cond t.now) self.old self.new) }
    {
        match t {
            Cond::Cmp(_, a, b) => {
                self.note_word(a)?;
                self.note_word(b)?;
                Ok(())
            }
            Cond::Not(t) => {
                self.note_cond(t.get())?;
                Ok(())
            }
            Cond::And(t, u) => {
                self.note_cond(t.get())?;
                self.note_cond(u.get())?;
                Ok(())
            }
            Cond::Or(t, u) => {
                self.note_cond(t.get())?;
                self.note_cond(u.get())?;
                Ok(())
            }
        }
    }

    /// Notes the reads of a statement.
    fn note_stmt(&mut self, s: &Stmt) -> Result<(), AllocError>
        ensures { OnOk result (Notes (reads_of_stmt s.now) self.old self.new) }
    {
        match s {
            Stmt::Set(_, e) => self.note_word(e),
            Stmt::Load(_, _, e) => self.note_word(e),
            Stmt::Store(_, e, f) => {
                self.note_word(e)?;
                self.note_word(f)?;
                Ok(())
            }
            Stmt::Ext(e) => self.note_word(e),
            Stmt::Trap(_, e) => self.note_word(e),
        }
    }

    /// Notes the reads of an end.
    fn note_end(&mut self, e: &End) -> Result<(), AllocError>
        ensures { OnOk result (Notes (reads_of_end e.now) self.old self.new) }
    {
        match e {
            End::Go(_) => Ok(()),
            End::Branch(t, _, _) => self.note_cond(t),
            End::Switch(e, _) => self.note_word(e),
            End::Return => Ok(()),
            End::Leave(e) => self.note_word(e),
        }
    }

    /// Notes the reads of statements and an end.
    fn note_block(&mut self, stmts: &[Stmt], end: &End) -> Result<(), AllocError>
        ensures { OnOk result (Notes (reads_of_rest stmts.now end.now) self.old self.new) }
    {
        for s in stmts {
            self.note_stmt(s)?;
        }
        self.note_end(end)?;
        Ok(())
    }
}

/// The reads of blocks.
pub(crate) fn count_reads(alloc: Global, blocks: &[Block]) -> Result<Reads, AllocError>
    ensures { IfOk result (λ r. Counted r (reads_of blocks.now)) }
{
    let mut reads = Reads::new(alloc);
    for b in blocks {
        reads.note_block(b.stmts.as_slice(), &b.end)?;
    }
    Ok(reads)
}
