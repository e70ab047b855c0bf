//! Conditions of the flags.

ghost use Rattle.std.specs.Prelude.{◌≡◌, IfOk};
ghost use Rattle.lift_alu.specs.Words.{flag_set, flag_clear, signs_differ, signs_agree, cond_words};
ghost use Rattle.lift_alu.specs.Lifts.{HasTruth};

use c_words::{and, cmp, name, num, or};
use dream_words::Name;
use micro_ir::{Cmp, Cond};
use std::alloc::{AllocError, Global};

/// The condition of the flags that has a number, taken modulo 16.
pub fn lift_cond(alloc: Global, c: x86_inst::Cond) -> Result<Cond, AllocError>
    ensures words { IfOk result (λ t. t ≡ cond_words c.0) }
    ensures truth { IfOk result (λ t. HasTruth c.0 t) }
{
    numbered(alloc, c.0)
}

// O, NO, B, AE, E, NE, BE, A, S, NS, P, NP, L, GE, LE and G.
fn numbered(alloc: Global, n: u8) -> Result<Cond, AllocError>
    ensures { IfOk result (λ t. t ≡ cond_words n) }
{
    match n % 16 {
        0 => Ok(set(4)),
        1 => Ok(clear(4)),
        2 => Ok(set(0)),
        3 => Ok(clear(0)),
        4 => Ok(set(2)),
        5 => Ok(clear(2)),
        6 => or(alloc, set(0), set(2)),
        7 => and(alloc, clear(0), clear(2)),
        8 => Ok(set(3)),
        9 => Ok(clear(3)),
        10 => Ok(set(1)),
        11 => Ok(clear(1)),
        12 => Ok(less()),
        13 => Ok(not_less()),
        14 => or(alloc, set(2), less()),
        _ => and(alloc, clear(2), not_less()),
    }
}

/// A flag is set.
pub fn set(flag: u8) -> Cond
    ensures { result ≡ flag_set flag }
{
    cmp(Cmp::Ne, name(Name::Flag(flag)), num(0))
}

// A flag is clear.
fn clear(flag: u8) -> Cond
    ensures { result ≡ flag_clear flag }
{
    cmp(Cmp::Eq, name(Name::Flag(flag)), num(0))
}

// SF isn't OF.
fn less() -> Cond
    ensures { result ≡ signs_differ }
{
    cmp(Cmp::Ne, name(Name::Flag(3)), name(Name::Flag(4)))
}

// SF is OF.
fn not_less() -> Cond
    ensures { result ≡ signs_agree }
{
    cmp(Cmp::Eq, name(Name::Flag(3)), name(Name::Flag(4)))
}
