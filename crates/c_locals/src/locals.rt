//! The locals that are kept, and their new numbers.

ghost use Rattle.std.specs.Prelude.{◌≡◌, ◌<◌, ◌^◌, length, slice_index_or, true, IfOk};
ghost use Rattle.c_locals.specs.Settled.{count_of, numbers_of, new_name, is_kept};

use crate::marks::Marks;
use dream_words::Name;
use std::alloc::{AllocError, Global};
use std::marker::Model;

/// Which locals are kept, and the new number of each.
#[derive(Drop)]
pub(crate) struct Locals {
    marks: Marks,
    temps: Vec<u32>,
    bools: Vec<u32>,
}

impl Model for Locals {
    ghost use Rattle.std.specs.Prelude.{◌≡◌};
    ghost use Rattle.c_locals.specs.Marks.{Marks as Kept};
    ghost use Rattle.c_locals.specs.Settled.{numbers_of};

    ghost Value = { Kept };

    ghost view = { λ l. l.marks };

    ghost invariant = { λ l. (l.temps.items ≡ numbers_of l.marks.temps 0) × (l.bools.items ≡ numbers_of l.marks.bools 0) };
}

/// How many are marked.
pub(crate) fn counted(marks: &[bool]) -> u32
    requires { length marks.now < 2 ^ 32 }
    ensures { result ≡ count_of marks.now }
{
    let mut count = 0;
    for kept in marks {
        if *kept {
            count += 1;
        }
    }
    count
}

/// The new number of each: one for each that is marked.
fn numbered(alloc: Global, marks: &[bool]) -> Result<Vec<u32>, AllocError>
    requires { length marks.now < 2 ^ 32 }
    ensures { IfOk result (λ r. r.items ≡ numbers_of marks.now 0) }
{
    let mut numbers = Vec::new(alloc);
    let mut next = 0;
    for kept in marks {
        numbers.push(next)?;
        if *kept {
            next += 1;
        }
    }
    Ok(numbers)
}

/// The new number of a local. One that isn't declared stays.
fn number(numbers: &[u32], n: u32) -> u32
    ensures { result ≡ slice_index_or numbers.now n n }
{
    let place = n as usize;
    if place < numbers.len() {
        numbers[place]
    } else {
        n
    }
}

/// Whether a local is marked. One that isn't declared counts as marked.
fn is_marked(marks: &[bool], n: u32) -> bool
    ensures { result ≡ slice_index_or marks.now n true }
{
    let place = n as usize;
    if place < marks.len() {
        marks[place]
    } else {
        true
    }
}

impl Locals {
    /// Numbers the locals that are marked.
    pub(crate) fn new(alloc: Global, marks: Marks) -> Result<Locals, AllocError>
        requires temps { length marks.temps < 2 ^ 32 }
        requires bools { length marks.bools < 2 ^ 32 }
        ensures { IfOk result (λ l. l ≡ marks) }
    {
        let temps = numbered(alloc, &marks.temps)?;
        let bools = numbered(alloc, &marks.bools)?;
        Ok(Locals {
            marks,
            temps,
            bools,
        })
    }

    /// The name with its new number.
    pub(crate) fn name(&self, n: Name) -> Name
        ensures { result ≡ new_name self.now n }
    {
        match n {
            Name::Reg(n) => Name::Reg(n),
            Name::Flag(n) => Name::Flag(n),
            Name::Fs => Name::Fs,
            Name::Gs => Name::Gs,
            Name::T(n) => Name::T(number(&self.temps, n)),
            Name::B(n) => Name::B(number(&self.bools, n)),
            Name::S(n) => Name::S(n),
        }
    }

    /// Whether a name is kept.
    pub(crate) fn keeps(&self, n: Name) -> bool
        ensures { result ≡ is_kept self.now n }
    {
        match n {
            Name::Reg(_) => true,
            Name::Flag(_) => true,
            Name::Fs => true,
            Name::Gs => true,
            Name::T(n) => is_marked(&self.marks.temps, n),
            Name::B(n) => is_marked(&self.marks.bools, n),
            Name::S(_) => true,
        }
    }

    /// How many locals for words are kept.
    pub(crate) fn temps(&self) -> u32
        requires { length self.now.temps < 2 ^ 32 }
        ensures { result ≡ count_of self.now.temps }
    {
        counted(&self.marks.temps)
    }

    /// How many locals for the outcomes of tests are kept.
    pub(crate) fn bools(&self) -> u32
        requires { length self.now.bools < 2 ^ 32 }
        ensures { result ≡ count_of self.now.bools }
    {
        counted(&self.marks.bools)
    }
}
