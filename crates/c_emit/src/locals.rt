//! The locals of a tree, and their new numbers.

ghost use Rattle.std.specs.Prelude.{◌≡◌, ◌↔◌, ◌<◌, ◌-◌, ◌^◌, min, length, slice_index, IsTrue, MatchOption, OnOk};
ghost use Rattle.std.specs.List.Sorted.{IsStrictlyIncreasing};
ghost use Rattle.guarded.specs.Numbers.{with_number, with_local, no_locals};
ghost use Rattle.c_emit.specs.Emitted.{below, new_name};
ghost use Rattle.c_emit.specs.Places.{IsPlace, Puts};

use dream_words::Name;
use std::alloc::{AllocError, Global};
use std::marker::Model;

/// The numbers of the locals of each kind, ascending, each once.
#[derive(Drop)]
pub(crate) struct Locals {
    temps: Vec<u32>,
    bools: Vec<u32>,
    selectors: Vec<u32>,
}

impl Model for Locals {
    ghost use Rattle.std.specs.List.Sorted.{IsStrictlyIncreasing};
    ghost use Rattle.guarded.specs.Numbers.{Locals as Numbers};

    ghost Value = { Numbers };

    ghost view = { λ l. record { temps = l.temps.items; bools = l.bools.items; selectors = l.selectors.items } };

    ghost invariant = { λ l. IsStrictlyIncreasing l.temps.items × IsStrictlyIncreasing l.bools.items × IsStrictlyIncreasing l.selectors.items };
}

impl Locals {
    pub(crate) fn new(alloc: Global) -> Locals
        ensures { result ≡ no_locals }
    {
        Locals {
            temps: Vec::new(alloc),
            bools: Vec::new(alloc),
            selectors: Vec::new(alloc),
        }
    }

    /// Takes a name in, if it is a local.
    pub(crate) fn add(&mut self, n: Name) -> Result<(), AllocError>
        ensures { OnOk result (self.new ≡ with_local self.old n) }
    {
        match n {
            Name::Reg(_) => Ok(()),
            Name::Flag(_) => Ok(()),
            Name::Fs => Ok(()),
            Name::Gs => Ok(()),
            Name::T(n) => put(&mut self.temps, n),
            Name::B(n) => put(&mut self.bools, n),
            Name::S(n) => put(&mut self.selectors, n),
        }
    }

    /// The name with its new number: how many of its kind are below it.
    pub(crate) fn name(&self, n: Name) -> Name
        ensures { result ≡ new_name self.now n }
    {
        match n {
            Name::Reg(n) => Name::Reg(n),
            Name::Flag(n) => Name::Flag(n),
            Name::Fs => Name::Fs,
            Name::Gs => Name::Gs,
            Name::T(n) => Name::T(new_number(&self.temps, n)),
            Name::B(n) => Name::B(new_number(&self.bools, n)),
            Name::S(n) => Name::S(new_number(&self.selectors, n)),
        }
    }

    /// How many locals for words there are; 2^32 - 1 where there are more.
    pub(crate) fn temps(&self) -> u32
        ensures { result ≡ min (length self.now.temps) (2 ^ 32 - 1) }
    {
        counted(&self.temps)
    }

    /// How many locals for tests there are; 2^32 - 1 where there are more.
    pub(crate) fn bools(&self) -> u32
        ensures { result ≡ min (length self.now.bools) (2 ^ 32 - 1) }
    {
        counted(&self.bools)
    }

    /// How many locals that select there are; 2^32 - 1 where there are more.
    pub(crate) fn selectors(&self) -> u32
        ensures { result ≡ min (length self.now.selectors) (2 ^ 32 - 1) }
    {
        counted(&self.selectors)
    }
}

/// How many numbers there are; 2^32 - 1 where there are more.
fn counted(numbers: &[u32]) -> u32
    ensures { result ≡ min (length numbers.now) (2 ^ 32 - 1) }
{
    let count = numbers.len();
    if count < 0xffff_ffff {
        count as u32
    } else {
        0xffff_ffff
    }
}

/// Where a number stands among ascending ones, or would stand.
fn place(numbers: &[u32], n: u32) -> usize
    requires { IsStrictlyIncreasing numbers.now }
    ensures { IsPlace numbers.now n result }
{
    numbers.partition_point(|k| *k < n)
}

/// Whether a number stands at a place.
fn stands_at(numbers: &[u32], at: usize, n: u32) -> bool
    ensures { IsTrue result ↔ ((at < length numbers.now) × (slice_index numbers.now at ≡ n)) }
{
    at < numbers.len() && numbers[at] == n
}

/// Where a number is to be put among ascending ones. None where it is there.
fn free_place(numbers: &[u32], n: u32) -> Option<usize>
    requires { IsStrictlyIncreasing numbers.now }
    ensures { MatchOption result (with_number numbers.now n ≡ numbers.now) (λ i. Puts numbers.now n i) }
{
    let at = place(numbers, n);
    if stands_at(numbers, at, n) {
        None
    } else {
        Some(at)
    }
}

/// Puts a number among ascending ones.
fn put(numbers: &mut Vec<u32>, n: u32) -> Result<(), AllocError>
    requires { IsStrictlyIncreasing numbers.old.items }
    ensures put { OnOk result (numbers.new.items ≡ with_number numbers.old.items n) }
    ensures ascending { IsStrictlyIncreasing numbers.new.items }
{
    match free_place(numbers, n) {
        None => Ok(()),
        Some(at) => {
            numbers.insert(at, n)?;
            Ok(())
        }
    }
}

/// How many of the ascending numbers are below a number.
fn new_number(numbers: &[u32], n: u32) -> u32
    requires { IsStrictlyIncreasing numbers.now }
    ensures { result ≡ below numbers.now n }
{
    place(numbers, n) as u32
}
