//! The state of a run, and what each simple statement does to it.

ghost use Rattle.std.specs.Prelude.{◌≡◌, ℕ, IfOk, []};
ghost use Rattle.dream_words.specs.Registers.{word_of_bit};
ghost use Rattle.run_parts.specs.Parts.{on, caught};
ghost use Rattle.run_parts.specs.World.{World, start_world, outcome_of};
ghost use Rattle.run_parts.specs.Effects.{set_word, calling};
ghost use Rattle.c_syntax.specs.Run.{does_set, does_load, does_store, does_trap};
ghost use Rattle.c_run.specs.declared.state.End.TheVariants.{Faulted};
ghost use Rattle.c_run.specs.declared.state.Flow.TheVariants.{Ends};
ghost use Rattle.c_run.specs.State.{Left, after_calls, flag_words, world_of, leads, DoesSimply};

use crate::env::{Env, FlagWords};
use c_syntax::CExpr;
use c_value::value;
use dream_words::{
    Answer, Bit, Call, Flags, Memory, Name, Outcome, Pages, Start, Width, first_bad,
};
use sqlite_items::Items;
use std::alloc::{AllocError, Global};

/// The vector of a page fault (Intel SDM vol. 3, 6.15).
const PAGE_FAULT: u32 = 14;

/// Where a run stands: what the names stand for, the memory, the pages that may be accessed, and the
/// calls so far.
#[derive(Drop)]
pub(crate) struct State<'a> {
    pub env: Env,
    pub mem: Memory,
    pub pages: &'a Pages,
    pub calls: Items<Call>,
}

/// How a whole run ends, or that it needs one more turn.
#[derive(Clone, Copy)]
pub(crate) enum End {
    Returned,
    /// By the fault of a vector. A page fault tells an address; `at` is else 0.
    Faulted { vector: u32, at: u32 },
    Asking,
    Stuck,
    Going,
}

/// Where a part of a run leads.
#[derive(Clone, Copy)]
pub(crate) enum Flow {
    /// To what follows the part.
    Next,
    /// Out of the nearest loop or switch.
    Left,
    /// To the end of the whole run.
    Ends(End),
}

impl Flow {
    /// Into a page fault, which tells the address of the first byte that isn't allowed.
    fn page_fault(at: u32) -> Flow
        ensures { result ≡ Ends (Faulted 14 at) }
    {
        Flow::Ends(End::Faulted {
            vector: PAGE_FAULT,
            at,
        })
    }

    /// Where a switch leads whose body leads there.
    pub(crate) fn caught(self) -> Flow
        ensures { (m : ℕ) (w : World) → leads result m w ≡ on (leads self m w) caught }
    {
        match self {
            Flow::Next => Flow::Next,
            Flow::Left => Flow::Next,
            Flow::Ends(end) => Flow::Ends(end),
        }
    }
}

fn bit_word(b: Bit) -> u32
    ensures { result ≡ word_of_bit b }
{
    match b {
        Bit::Zero => 0,
        Bit::One => 1,
        Bit::Undefined => 0,
    }
}

fn flag_words(f: &Flags) -> FlagWords
    ensures { result ≡ flag_words f.now }
{
    FlagWords {
        c: bit_word(f.c),
        p: bit_word(f.p),
        z: bit_word(f.z),
        s: bit_word(f.s),
        o: bit_word(f.o),
    }
}

impl<'a> State<'a> {
    /// Where a run begins.
    pub(crate) fn new(alloc: Global, start: &'a Start) -> Result<State<'a>, AllocError>
        ensures { IfOk result (λ s.
            (left : Left) → world_of left s ≡ start_world start.now (left [])) }
    {
        let mem = start.mem.copy()?;
        Ok(State {
            env: Env {
                regs: start.regs,
                flags: flag_words(&start.flags),
                fs: start.fs,
                gs: start.gs,
                temps: Items::new(alloc),
                bools: Items::new(alloc),
                selectors: Items::new(alloc),
            },
            mem,
            pages: &start.pages,
            calls: Items::new(alloc),
        })
    }

    /// A name is set to a word.
    fn assign(&mut self, n: Name, x: u32) -> Result<(), AllocError>
        ensures { IfOk result (λ _.
            (left : Left) → world_of left self.new
            ≡ set_word n x (world_of left self.old)) }
    {
        self.env.set(n, x)
    }

    /// `n = a;`
    pub(crate) fn set(&mut self, n: Name, a: &CExpr) -> Result<Flow, AllocError>
        ensures { IfOk result (λ flow.
            (left : Left) → DoesSimply (does_set n a.now) left self.old flow self.new) }
    {
        let Some(x) = value(a, &self.env) else {
            return Ok(Flow::Ends(End::Stuck));
        };
        self.assign(n, x)?;
        Ok(Flow::Next)
    }

    /// `n = ld4(a);`
    pub(crate) fn load(&mut self, n: Name, width: Width, a: &CExpr) -> Result<Flow, AllocError>
        ensures { IfOk result (λ flow.
            (left : Left) → DoesSimply (does_load n width a.now) left self.old flow self.new) }
    {
        let Some(at) = value(a, &self.env) else {
            return Ok(Flow::Ends(End::Stuck));
        };
        if let Some(bad) = first_bad(&self.pages.read, at, width) {
            return Ok(Flow::page_fault(bad));
        }
        let x = self.mem.load(at, width);
        self.assign(n, x)?;
        Ok(Flow::Next)
    }

    /// `st4(a, b);`
    pub(crate) fn store(&mut self, width: Width, a: &CExpr, b: &CExpr) -> Result<Flow, AllocError>
        ensures { IfOk result (λ flow.
            (left : Left) → DoesSimply (does_store width a.now b.now) left self.old flow self.new) }
    {
        let Some(at) = value(a, &self.env) else {
            return Ok(Flow::Ends(End::Stuck));
        };
        let Some(x) = value(b, &self.env) else {
            return Ok(Flow::Ends(End::Stuck));
        };
        if let Some(bad) = first_bad(&self.pages.write, at, width) {
            return Ok(Flow::page_fault(bad));
        }
        self.mem.store(at, width, x)?;
        Ok(Flow::Next)
    }

    /// A call is recorded, and its answer taken where there is one.
    pub(crate) fn call(&mut self, answers: &[Answer], target: u32) -> Result<Flow, AllocError>
        ensures { IfOk result (λ flow.
            DoesSimply (calling target) (after_calls answers.now) self.old flow self.new) }
    {
        let k = self.calls.len();
        let regs = self.env.regs;
        let mem = self.mem.copy()?;
        self.calls.push(Call { target, regs, mem })?;
        match answers.get(k) {
            None => Ok(Flow::Ends(End::Asking)),
            Some(a) => {
                self.env.regs = a.regs;
                self.env.flags = flag_words(&a.flags);
                self.mem = a.mem.copy()?;
                Ok(Flow::Next)
            }
        }
    }

    /// `trap(v, a);`
    pub(crate) fn trap(&self, vector: u32, a: &CExpr) -> Flow
        ensures { (left : Left) → DoesSimply (does_trap vector a.now) left self.now result self.now }
    {
        match value(a, &self.env) {
            None => Flow::Ends(End::Stuck),
            Some(0) => Flow::Next,
            Some(_) => Flow::Ends(End::Faulted { vector, at: 0 }),
        }
    }

    /// The outcome of a run that led there.
    pub(crate) fn outcome(self, flow: Flow) -> Outcome
        ensures { (m : ℕ) (left : Left) → result ≡ outcome_of (leads flow m (world_of left self.entry)) }
    {
        let State {
            env,
            mem,
            calls,
            ..
        } = self;
        match flow {
            Flow::Next | Flow::Ends(End::Returned) => Outcome::Returned {
                regs: env.regs,
                mem,
                calls,
            },
            Flow::Left | Flow::Ends(End::Stuck) => Outcome::Stuck,
            Flow::Ends(End::Faulted { vector, at }) => Outcome::Faulted {
                vector,
                at,
                mem,
                calls,
            },
            Flow::Ends(End::Asking) => Outcome::Asking { calls },
            Flow::Ends(End::Going) => Outcome::Going { calls },
        }
    }
}
