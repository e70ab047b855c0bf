//! What rows are made of: how a step ends, what it writes besides, and the conditions that it reads.

ghost use Rattle.std.specs.Prelude.{◌≡◌};
ghost use Rattle.dream_words.specs.Signed.{differ};
ghost use Rattle.x86_model.specs.Effects.{done, goes, stray, stored, put, push, known, both, either, opposite, even_condition, condition_of};

use crate::effect::{Effect, Go, Step, Stored};
use crate::operands;
use dream_words::{Bit, Flags};
use x86_inst::{Cond, Operand, Size};

/// The run goes on after the instruction, with these flags.
pub(crate) fn done(a: &Step, flags: Flags) -> Effect
    ensures { result ≡ done a.now flags }
{
    Effect {
        regs: a.regs,
        flags,
        store: None,
        go: Go::Next,
    }
}

/// The run goes on elsewhere.
pub(crate) fn goes(go: Go, a: &Step) -> Effect
    ensures { result ≡ goes go a.now }
{
    Effect {
        regs: a.regs,
        flags: a.flags,
        store: None,
        go,
    }
}

/// The step strays.
pub(crate) fn stray(a: &Step) -> Effect
    ensures { result ≡ stray a.now }
{
    goes(Go::Stray, a)
}

/// A store of the low part of a value.
pub(crate) fn stored(at: u32, size: Size, v: u32) -> Option<Stored>
    ensures { result ≡ stored at size v }
{
    Some(Stored {
        at,
        width: operands::width(size),
        value: operands::low(size, v),
    })
}

/// Writes a value to an operand besides.
pub(crate) fn put(size: Size, d: &Operand, v: u32, a: &Step, mut e: Effect) -> Effect
    ensures { result ≡ put size d.now v a.now e }
{
    match d {
        Operand::Reg(n) => operands::set_part(size, &mut e.regs, *n, v),
        Operand::Mem(m) => e.store = stored(operands::address(m, &a.regs, a.fs, a.gs), size, v),
        Operand::Imm(_) => {}
    }
    e
}

/// Pushes a word besides.
pub(crate) fn push(v: u32, a: &Step, mut e: Effect) -> Effect
    ensures { result ≡ push v a.now e }
{
    let at = a.regs.esp.wrapping_sub(4);
    e.regs.set(4, at);
    e.store = stored(at, Size::W, v);
    e
}

/// What a flag is known to be.
pub(crate) fn known(b: Bit) -> Option<bool>
    ensures { result ≡ known b }
{
    match b {
        Bit::Zero => Some(false),
        Bit::One => Some(true),
        Bit::Undefined => None,
    }
}

/// One of two flags, both of which are read.
fn either_of(x: Option<bool>, y: Option<bool>) -> Option<bool>
    ensures { result ≡ both either x y }
{
    Some(x? | y?)
}

/// Just one of two flags, both of which are read.
fn differ_of(x: Option<bool>, y: Option<bool>) -> Option<bool>
    ensures { result ≡ both differ x y }
{
    Some(x? ^ y?)
}

/// The conditions O, B, E, BE, S, P, L and LE.
fn even_condition(n: u8, f: &Flags) -> Option<bool>
    ensures { result ≡ even_condition n f.now }
{
    match n {
        0 => known(f.o),
        1 => known(f.c),
        2 => known(f.z),
        3 => either_of(known(f.c), known(f.z)),
        4 => known(f.s),
        5 => known(f.p),
        6 => differ_of(known(f.s), known(f.o)),
        _ => either_of(known(f.z), differ_of(known(f.s), known(f.o))),
    }
}

/// A condition, or none where it reads an undefined flag.
pub(crate) fn condition(n: Cond, f: &Flags) -> Option<bool>
    ensures { result ≡ condition_of n.0 f.now }
{
    let holds = even_condition(n.0 % 16 / 2, f);
    if n.0 % 2 == 0 { holds } else { opposite(holds) }
}

/// The opposite of a condition.
fn opposite(holds: Option<bool>) -> Option<bool>
    ensures { result ≡ opposite holds }
{
    match holds {
        Some(b) => Some(!b),
        None => None,
    }
}
