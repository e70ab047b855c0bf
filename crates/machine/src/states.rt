//! Where a run of the machine stands, and one step of it.

ghost use Rattle.std.specs.Prelude.{◌≡◌, ◌&&◌, ◌||◌, ℕ, IfOk, List, Option};
ghost use Rattle.dream_words.specs.declared.outcome.Answer.{Answer as Reply};
ghost use Rattle.dream_words.specs.declared.pages.Pages.{Pages as Rights};
ghost use Rattle.x86_inst.specs.declared.Inst.{Inst as Instruction};
ghost use Rattle.x86_model.specs.Leads.{leads, after, effect_in, first_of, read_by as read_by_of, refused as refused_of, refused_word, refused_read as refused_read_of, refused_store as refused_store_of, stored};
ghost use Rattle.x86_model.specs.Undefined.{is_stray as is_stray_of};
ghost use Rattle.machine.specs.Code.{is_broken as is_broken_of};
ghost use Rattle.machine.specs.Run.{answer_breaks as answer_breaks_in, strays as strays_in, reads_allowed, is_allowed as is_allowed_of, takes_broken as takes_broken_of, goes_middle as goes_middle_of, returns_elsewhere as returns_elsewhere_of, acts, start_state, outcome_of};
ghost use Rattle.machine.specs.Coded.{state_with, state_of, onward, scene_in, IsStep, calling, leaving};

use crate::held::{is_broken, store_breaks};
use crate::settings::{Setting, fetch, is_middle};
use dream_words::{Call, Flags, Memory, Outcome, PageRun, Regs, Start, first_bad};
use sqlite_items::Items;
use std::alloc::{AllocError, Global};
use x86_inst::Inst;
use x86_model::{Access, Effect, Go, Stored, apply, reads_undefined, wants};

/// Where a run of the machine stands.
#[derive(Drop)]
pub struct Machine {
    pub regs: Regs,
    pub flags: Flags,
    /// The base of the segment FS.
    pub fs: u32,
    /// The base of the segment GS.
    pub gs: u32,
    pub mem: Memory,
    /// The calls so far. Each has taken an answer, but for the last one of a run that asks.
    pub calls: Items<Call>,
}

/// Where a step led.
#[derive(Clone, Copy, Debug, PartialEq, Eq)]
pub enum Led {
    /// To an address.
    To(u32),
    /// To the caller.
    Returned,
    /// Into the fault of a vector.
    Faulted {
        vector: u32,
        /// Of a page fault, vector 14, the address of the first byte that isn't allowed; else 0.
        at: u32,
    },
    /// To a call that has no answer.
    Asking,
    /// To a step of which nothing is said.
    Strayed,
    /// To an address at which no instruction begins.
    Undecoded,
}

// The vector of a page fault (Intel SDM vol. 3, 6.15).
const PAGE_FAULT: u32 = 14;

fn read_by(mem: &Memory, access: Option<Access>) -> u32
    ensures { result ≡ read_by_of access mem.now }
{
    match access {
        None => 0,
        Some(a) => mem.load(a.at, a.width),
    }
}

/// The first byte of a read that isn't on these pages.
fn refused(runs: &Items<PageRun>, access: Option<Access>) -> Option<u32>
    ensures { result ≡ refused_of runs.now access }
{
    match access {
        None => None,
        Some(a) => first_bad(runs, a.at, a.width),
    }
}

/// The first byte that an effect may not store.
fn refused_store(setting: &Setting, effect: &Effect) -> Option<u32>
    ensures { result ≡ refused_word setting.now.pages.now.write effect.now.store }
{
    match effect.store {
        None => None,
        Some(s) => first_bad(&setting.pages.write, s.at, s.width),
    }
}

/// The effect is a stray.
fn is_stray(go: Go) -> bool
    ensures { result ≡ is_stray_of go }
{
    matches!(go, Go::Stray)
}

/// The step goes by a word into the middle of the range.
fn goes_middle(setting: &Setting, inst: &Inst, go: Go) -> bool
    ensures { (decoded : ℕ → Option (Instruction × ℕ)) → result ≡ goes_middle_of (scene_in setting.now decoded) inst.now go }
{
    match go {
        Go::CallTo(a) => is_middle(setting.range, inst, a),
        Go::LeaveTo(a) => is_middle(setting.range, inst, a),
        Go::Next => false,
        Go::Again => false,
        Go::To(_) => false,
        Go::Return => false,
        Go::Fault(_) => false,
        Go::Stray => false,
    }
}

impl Machine {
    /// Where a run starts.
    pub fn new(alloc: Global, start: &Start) -> Result<Machine, AllocError>
        ensures { IfOk result (λ m. (answers : List Reply) → state_with start.now.pages answers m ≡ start_state start.now answers) }
    {
        let mem = start.mem.copy()?;
        Ok(Machine {
            regs: start.regs,
            flags: start.flags,
            fs: start.fs,
            gs: start.gs,
            mem,
            calls: Items::new(alloc),
        })
    }

    /// One step from an address. Where memory is refused the machine is no longer to be used.
    pub fn step(&mut self, alloc: Global, setting: &Setting, at: u32) -> Result<Led, AllocError>
        ensures { IfOk result (λ led. IsStep setting.now at self.old led self.new) }
    {
        if !setting.range.is_inside(at) {
            return self.leave(setting, at);
        }
        match fetch(alloc, setting.image, setting.range, at)? {
            None => Ok(Led::Undecoded),
            Some((inst, len)) => self.act(setting, &inst, at, at.wrapping_add(u32::from(len))),
        }
    }

    /// A call of the address outside the range to which the run came.
    fn leave(&mut self, setting: &Setting, at: u32) -> Result<Led, AllocError>
        ensures { IfOk result (λ led. (decoded : ℕ → Option (Instruction × ℕ)) →
            onward led (state_of setting.now self.new)
            ≡ leaving (scene_in setting.now decoded) at (state_of setting.now self.old)) }
    {
        if self.answer_breaks(setting) {
            return Ok(Led::Strayed);
        }
        self.call(setting, at, Led::Returned)
    }

    /// An instruction has its effect, unless it strays or an access of it isn't allowed.
    fn act(&mut self, setting: &Setting, inst: &Inst, at: u32, next: u32) -> Result<Led, AllocError>
        ensures { IfOk result (λ led. (decoded : ℕ → Option (Instruction × ℕ)) →
            onward led (state_of setting.now self.new)
            ≡ acts (scene_in setting.now decoded) inst.now at next (state_of setting.now self.old)) }
    {
        let effect = self.effect(inst, next);
        if self.strays(setting, inst, &effect) {
            return Ok(Led::Strayed);
        }
        match self.refused(setting, inst, &effect) {
            Some(bad) => Ok(Led::Faulted {
                vector: PAGE_FAULT,
                at: bad,
            }),
            None => self.take(setting, &effect, at, next),
        }
    }

    /// What an instruction does here.
    fn effect(&self, inst: &Inst, next: u32) -> Effect
        ensures { (pages : Rights) (answers : List Reply) → result ≡ effect_in inst.now next (state_with pages answers self.now) }
    {
        let reads = wants(inst, &self.regs, self.fs, self.gs);
        let first = read_by(&self.mem, reads.first);
        let second = read_by(&self.mem, reads.second);
        apply(
            inst,
            &self.regs,
            &self.flags,
            self.fs,
            self.gs,
            first,
            second,
            next,
        )
    }

    // ---- accesses that aren't allowed

    /// The first byte of the step's accesses, its reads and then its store, that isn't allowed.
    fn refused(&self, setting: &Setting, inst: &Inst, effect: &Effect) -> Option<u32>
        ensures { result ≡ first_of (refused_read_of inst.now (state_of setting.now self.now)) (refused_store_of effect.now (state_of setting.now self.now)) }
    {
        match self.refused_read(setting, inst) {
            Some(bad) => Some(bad),
            None => refused_store(setting, effect),
        }
    }

    /// The first byte of its two reads, in their order, that isn't allowed.
    fn refused_read(&self, setting: &Setting, inst: &Inst) -> Option<u32>
        ensures { result ≡ refused_read_of inst.now (state_of setting.now self.now) }
    {
        let reads = wants(inst, &self.regs, self.fs, self.gs);
        match refused(&setting.pages.read, reads.first) {
            Some(bad) => Some(bad),
            None => refused(&setting.pages.read, reads.second),
        }
    }

    // ---- strays

    /// The step strays.
    fn strays(&self, setting: &Setting, inst: &Inst, effect: &Effect) -> bool
        ensures { (decoded : ℕ → Option (Instruction × ℕ)) →
            result ≡ strays_in (scene_in setting.now decoded) inst.now (state_of setting.now self.now) effect.now }
    {
        self.breaks(setting, inst, effect)
            || self.returns_elsewhere(setting, effect.go)
            || reads_undefined(inst, &self.flags)
            || self.goes_astray(setting, inst, effect.go)
    }

    /// The store or the answer changes a byte that must stay, and every access is allowed.
    fn breaks(&self, setting: &Setting, inst: &Inst, effect: &Effect) -> bool
        ensures { (decoded : ℕ → Option (Instruction × ℕ)) → let m = state_of setting.now self.now in
            result ≡ (is_allowed_of inst.now m effect.now
            && (is_broken_of setting.now.image.now setting.now.slot self.now.mem (stored self.now.mem effect.now.store)
            || takes_broken_of (scene_in setting.now decoded) m effect.now.go)) }
    {
        self.is_allowed(setting, inst, effect)
            && (store_breaks(setting.image, setting.slot, &self.mem, effect.store)
                || self.takes_broken(setting, effect.go))
    }

    /// Every access is allowed.
    fn is_allowed(&self, setting: &Setting, inst: &Inst, effect: &Effect) -> bool
        ensures { result ≡ is_allowed_of inst.now (state_of setting.now self.now) effect.now }
    {
        self.reads_allowed(setting, inst) && refused_store(setting, effect).is_none()
    }

    /// Every read is allowed.
    fn reads_allowed(&self, setting: &Setting, inst: &Inst) -> bool
        ensures { result ≡ reads_allowed inst.now (state_of setting.now self.now) }
    {
        self.refused_read(setting, inst).is_none()
    }

    /// The step takes an answer that changes a byte that must stay.
    fn takes_broken(&self, setting: &Setting, go: Go) -> bool
        ensures { (decoded : ℕ → Option (Instruction × ℕ)) →
            result ≡ takes_broken_of (scene_in setting.now decoded) (state_of setting.now self.now) go }
    {
        match go {
            Go::CallTo(_) => self.answer_breaks(setting),
            Go::LeaveTo(_) => self.answer_breaks(setting),
            Go::Next => false,
            Go::Again => false,
            Go::To(_) => false,
            Go::Return => false,
            Go::Fault(_) => false,
            Go::Stray => false,
        }
    }

    /// The step returns with ESP elsewhere than at the return slot.
    fn returns_elsewhere(&self, setting: &Setting, go: Go) -> bool
        ensures { (decoded : ℕ → Option (Instruction × ℕ)) →
            result ≡ returns_elsewhere_of (scene_in setting.now decoded) (state_of setting.now self.now) go }
    {
        match go {
            Go::Return => self.regs.esp != setting.slot,
            Go::CallTo(_) => false,
            Go::LeaveTo(_) => false,
            Go::Next => false,
            Go::Again => false,
            Go::To(_) => false,
            Go::Fault(_) => false,
            Go::Stray => false,
        }
    }

    /// The step searches 0 for a bit or goes into the middle of the range, and every read is allowed.
    fn goes_astray(&self, setting: &Setting, inst: &Inst, go: Go) -> bool
        ensures { (decoded : ℕ → Option (Instruction × ℕ)) →
            result ≡ (reads_allowed inst.now (state_of setting.now self.now)
            && (is_stray_of go || goes_middle_of (scene_in setting.now decoded) inst.now go)) }
    {
        self.reads_allowed(setting, inst) && (is_stray(go) || goes_middle(setting, inst, go))
    }

    /// The next answer changes a byte that must stay.
    fn answer_breaks(&self, setting: &Setting) -> bool
        ensures { (decoded : ℕ → Option (Instruction × ℕ)) → let state = state_of setting.now self.now in
            result ≡ answer_breaks_in (scene_in setting.now decoded) state.left state.mem }
    {
        match setting.answers.get(self.calls.len()) {
            None => false,
            Some(answer) => is_broken(setting.image, setting.slot, &self.mem, &answer.mem),
        }
    }

    // ---- effects

    /// An effect is taken.
    fn take(
        &mut self,
        setting: &Setting,
        effect: &Effect,
        at: u32,
        next: u32,
    ) -> Result<Led, AllocError>
        ensures { IfOk result (λ led. let old = state_of setting.now self.old in
            onward led (state_of setting.now self.new) ≡ leads effect.now.go at next (after effect.now old)) }
    {
        if let Some(s) = effect.store {
            self.mem.store(s.at, s.width, s.value)?;
        }
        self.regs = effect.regs;
        self.flags = effect.flags;
        self.go(setting, effect.go, at, next)
    }

    /// The run goes on.
    fn go(&mut self, setting: &Setting, go: Go, at: u32, next: u32) -> Result<Led, AllocError>
        ensures { IfOk result (λ led.
            onward led (state_of setting.now self.new) ≡ leads go at next (state_of setting.now self.old)) }
    {
        match go {
            Go::Next => Ok(Led::To(next)),
            Go::Again => Ok(Led::To(at)),
            Go::To(a) => Ok(Led::To(a)),
            Go::CallTo(a) => self.call(setting, a, Led::To(next)),
            Go::LeaveTo(a) => self.call(setting, a, Led::Returned),
            Go::Return => Ok(Led::Returned),
            Go::Fault(vector) => Ok(Led::Faulted { vector, at: 0 }),
            Go::Stray => Ok(Led::Strayed),
        }
    }

    /// A call is recorded, and its answer taken where there is one; then the run goes on.
    fn call(&mut self, setting: &Setting, target: u32, then: Led) -> Result<Led, AllocError>
        ensures { IfOk result (λ led.
            onward led (state_of setting.now self.new) ≡ calling then target (state_of setting.now self.old)) }
    {
        let k = self.calls.len();
        let regs = self.regs;
        let mem = self.mem.copy()?;
        self.calls.push(Call { target, regs, mem })?;
        match setting.answers.get(k) {
            None => Ok(Led::Asking),
            Some(a) => {
                self.regs = a.regs;
                self.flags = a.flags;
                self.mem = a.mem.copy()?;
                Ok(then)
            }
        }
    }

    /// The outcome of a run whose last step led there.
    pub fn outcome(self, led: Led) -> Outcome
        ensures { (pages : Rights) (answers : List Reply) → result ≡ outcome_of (onward led (state_with pages answers self)) }
    {
        let Machine {
            regs,
            mem,
            calls,
            ..
        } = self;
        match led {
            Led::To(_) => Outcome::Going { calls },
            Led::Returned => Outcome::Returned { regs, mem, calls },
            Led::Faulted { vector, at } => Outcome::Faulted {
                vector,
                at,
                mem,
                calls,
            },
            Led::Asking => Outcome::Asking { calls },
            Led::Strayed => Outcome::Strayed,
            Led::Undecoded => Outcome::Undecoded,
        }
    }
}
