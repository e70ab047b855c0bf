//! What an operand, and a round of a string instruction, read.

ghost use Rattle.std.specs.Prelude.{◌≡◌};
ghost use Rattle.x86_model.specs.Reads.{no_reads, one_read, word_at, operand_read, pair_read, source_read, target_read, round_reads, str_reads};

use crate::effect::{Access, Reads};
use crate::operands::{address, base, width};
use crate::strings::repeats;
use dream_words::Regs;
use x86_inst::{Operand, Rep, Seg, Size, StrOp};

/// No read.
pub(crate) fn none() -> Reads
    ensures { result ≡ no_reads }
{
    Reads {
        first: None,
        second: None,
    }
}

/// A single read, if any.
pub(crate) fn one(a: Option<Access>) -> Reads
    ensures { result ≡ one_read a }
{
    Reads {
        first: a,
        second: None,
    }
}

/// The word at an address.
pub(crate) fn word(size: Size, at: u32) -> Option<Access>
    ensures { result ≡ word_at size at }
{
    Some(Access {
        at,
        width: width(size),
    })
}

/// What is read of an operand: memory alone.
pub(crate) fn operand(size: Size, s: &Operand, r: &Regs, fs: u32, gs: u32) -> Option<Access>
    ensures { result ≡ operand_read size s.now r.now fs gs }
{
    match s {
        Operand::Mem(m) => word(size, address(m, r, fs, gs)),
        Operand::Reg(_) => None,
        Operand::Imm(_) => None,
    }
}

/// What is read of two operands, of which at most one is memory.
pub(crate) fn pair(
    size: Size,
    d: &Operand,
    s: &Operand,
    r: &Regs,
    fs: u32,
    gs: u32,
) -> Option<Access>
    ensures { result ≡ pair_read size d.now s.now r.now fs gs }
{
    match operand(size, d, r, fs, gs) {
        Some(a) => Some(a),
        None => operand(size, s, r, fs, gs),
    }
}

/// The word at ESI.
fn source(size: Size, seg: Seg, r: &Regs, fs: u32, gs: u32) -> Option<Access>
    ensures { result ≡ source_read size seg r.now fs gs }
{
    word(size, r.esi.wrapping_add(base(seg, fs, gs)))
}

/// The word at EDI.
fn target(size: Size, r: &Regs) -> Option<Access>
    ensures { result ≡ target_read size r.now }
{
    word(size, r.edi)
}

/// One round of a string instruction.
fn round(op: StrOp, size: Size, seg: Seg, r: &Regs, fs: u32, gs: u32) -> Reads
    ensures { result ≡ round_reads op size seg r.now fs gs }
{
    match op {
        StrOp::Movs | StrOp::Lods => one(source(size, seg, r, fs, gs)),
        StrOp::Cmps => Reads {
            first: source(size, seg, r, fs, gs),
            second: target(size, r),
        },
        StrOp::Scas => one(target(size, r)),
        StrOp::Stos => none(),
    }
}

/// A step of a string instruction.
pub(crate) fn string(op: StrOp, size: Size, rep: Rep, seg: Seg, r: &Regs, fs: u32, gs: u32) -> Reads
    ensures { result ≡ str_reads op size rep seg r.now fs gs }
{
    if repeats(rep) && r.ecx == 0 {
        return none();
    }
    round(op, size, seg, r, fs, gs)
}
