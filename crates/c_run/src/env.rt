//! What the names of a function stand for while it runs.

ghost use Rattle.std.specs.Prelude.{◌≡◌, IfOk, OnErr, ℕ, slice_index};
ghost use Rattle.dream_words.specs.declared.machine.Name.{Name};
ghost use Rattle.run_parts.specs.World.{with_name};
ghost use Rattle.c_run.specs.Env.{flag_word, with_flag, with_local, names_of};

use c_value::Words;
use dream_words::{Name, Regs};
use sqlite_items::Items;
use std::alloc::AllocError;

/// The carry, parity, zero, sign and overflow flag as words. They are 0 or 1 until a statement sets
/// them to another word.
#[derive(Clone, Copy)]
pub(crate) struct FlagWords {
    pub c: u32,
    pub p: u32,
    pub z: u32,
    pub s: u32,
    pub o: u32,
}

/// The word of each name. A local past the end of its list is 0.
#[derive(Drop)]
pub(crate) struct Env {
    pub regs: Regs,
    pub flags: FlagWords,
    /// The base of the segment FS.
    pub fs: u32,
    /// The base of the segment GS.
    pub gs: u32,
    pub temps: Items<u32>,
    pub bools: Items<u32>,
    pub selectors: Items<u32>,
}

impl FlagWords {
    fn get(&self, n: u8) -> u32
        ensures { result ≡ flag_word self.now n }
    {
        match n {
            0 => self.c,
            1 => self.p,
            2 => self.z,
            3 => self.s,
            4 => self.o,
            _ => 0,
        }
    }

    fn set(&mut self, n: u8, x: u32)
        ensures { self.new ≡ with_flag self.old n x }
    {
        match n {
            0 => self.c = x,
            1 => self.p = x,
            2 => self.z = x,
            3 => self.s = x,
            4 => self.o = x,
            _ => {}
        }
    }
}

fn local(words: &Items<u32>, n: u32) -> u32
    ensures { result ≡ slice_index words.now n }
{
    words.as_slice().get(n as usize).copied().unwrap_or(0)
}

/// Sets a local. Its list grows by zeros as far as it has to.
fn set_local(words: &mut Items<u32>, n: u32, x: u32) -> Result<(), AllocError>
    ensures ok { IfOk result (λ _.
        (k : ℕ) → slice_index words.new k ≡ with_local (λ k. slice_index words.old k) n x k) }
    ensures err { OnErr result ((k : ℕ) → slice_index words.new k ≡ slice_index words.old k) }
{
    let n = n as usize;
    while words.len() <= n {
        words.push(0)?;
    }
    words.set(n, x);
    Ok(())
}

impl Words for Env {
    ghost words = { names_of };

    fn word(&self, n: Name) -> u32 {
        match n {
            Name::Reg(n) => self.regs.get(n),
            Name::Flag(n) => self.flags.get(n),
            Name::Fs => self.fs,
            Name::Gs => self.gs,
            Name::T(n) => local(&self.temps, n),
            Name::B(n) => local(&self.bools, n),
            Name::S(n) => local(&self.selectors, n),
        }
    }
}

impl Env {
    /// Sets a name. Where memory is refused, every name keeps its word.
    pub(crate) fn set(&mut self, n: Name, x: u32) -> Result<(), AllocError>
        ensures ok { IfOk result (λ _.
            (k : Name) → names_of self.new k ≡ with_name (names_of self.old) n x k) }
        ensures err { OnErr result ((k : Name) → names_of self.new k ≡ names_of self.old k) }
    {
        match n {
            Name::Reg(n) => self.regs.set(n, x),
            Name::Flag(n) => self.flags.set(n, x),
            Name::Fs => self.fs = x,
            Name::Gs => self.gs = x,
            Name::T(n) => set_local(&mut self.temps, n, x)?,
            Name::B(n) => set_local(&mut self.bools, n, x)?,
            Name::S(n) => set_local(&mut self.selectors, n, x)?,
        }
        Ok(())
    }
}
