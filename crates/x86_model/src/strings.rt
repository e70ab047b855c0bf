//! The rows of strings.

ghost use Rattle.std.specs.Prelude.{◌≡◌};
ghost use Rattle.dream_words.specs.Memory.{bytes_of};
ghost use Rattle.x86_model.specs.Operands.{width_of};
ghost use Rattle.x86_model.specs.WideRows.{stepped, round_of, whole_round, again, repeats, repeated, str_row};

use crate::arithmetic::alu;
use crate::effect::{Effect, Go, Step};
use crate::effects::{done, stored};
use crate::operands::{part, set_part};
use dream_words::{Bit, Regs};
use x86_inst::{AluOp, Rep, Size, StrOp};

/// The size in bytes.
fn bytes(size: Size) -> u32
    ensures { result ≡ bytes_of (width_of size) }
{
    match size {
        Size::B => 1,
        Size::H => 2,
        Size::W => 4,
    }
}

/// ESI and EDI after a round.
fn stepped(op: StrOp, size: Size, mut r: Regs) -> Regs
    ensures { result ≡ stepped op size r }
{
    if matches!(op, StrOp::Movs | StrOp::Cmps | StrOp::Lods) {
        r.esi = r.esi.wrapping_add(bytes(size));
    }
    if !matches!(op, StrOp::Lods) {
        r.edi = r.edi.wrapping_add(bytes(size));
    }
    r
}

/// One round, before the registers step.
fn round(op: StrOp, size: Size, a: &Step) -> Effect
    ensures { result ≡ round_of op size a.now }
{
    let mut e = done(a, a.flags);
    match op {
        StrOp::Movs => e.store = stored(a.regs.edi, size, a.first),
        StrOp::Stos => e.store = stored(a.regs.edi, size, a.regs.eax),
        StrOp::Lods => set_part(size, &mut e.regs, 0, a.first),
        StrOp::Cmps => e.flags = alu(AluOp::Cmp, size, a.first, a.second, false).flags,
        StrOp::Scas => {
            let accumulator = part(size, &a.regs, 0);
            e.flags = alu(AluOp::Cmp, size, accumulator, a.first, false).flags;
        }
    }
    e
}

/// Whether the instruction stands again after a round.
fn again(r: Rep, z: Bit) -> Go
    ensures { result ≡ again r z }
{
    match (r, z) {
        (Rep::No, _) => Go::Next,
        (Rep::Rep, _) | (Rep::Repe, Bit::One) => Go::Again,
        (Rep::Repe, _) | (Rep::Repne, Bit::One) => Go::Next,
        (Rep::Repne, _) => Go::Again,
    }
}

/// The instruction is repeated.
pub(crate) fn repeats(r: Rep) -> bool
    ensures { result ≡ repeats r }
{
    !matches!(r, Rep::No)
}

/// MOVS, CMPS, STOS, LODS, SCAS.
pub(crate) fn string(op: StrOp, size: Size, r: Rep, a: &Step) -> Effect
    ensures { result ≡ str_row op size r a.now }
{
    if repeats(r) && a.regs.ecx == 0 {
        return done(a, a.flags);
    }
    let mut e = round(op, size, a);
    e.regs = stepped(op, size, e.regs);
    if repeats(r) {
        let count = e.regs.ecx.wrapping_sub(1);
        e.regs.set(1, count);
        e.go = again(r, e.flags.z);
    }
    e
}
