//! Sizes, parts of registers, addresses and values.

ghost use Rattle.std.specs.Prelude.{◌≡◌};
ghost use Rattle.x86_model.specs.Operands.{bits_of, width_of, part_of, with_part, with_low, with_second, address_of, value_of, count_of, reg_or_zero, base_of};
ghost use Rattle.dream_words.specs.Words.{low_part};

use crate::effect::Step;
use dream_words::{Regs, Width};
use x86_inst::{Count, Mem, Operand, Seg, Size};

/// The size in bits.
pub(crate) fn bits(size: Size) -> u32
    ensures { result ≡ bits_of size }
{
    match size {
        Size::B => 8,
        Size::H => 16,
        Size::W => 32,
    }
}

/// The width of an access.
pub(crate) fn width(size: Size) -> Width
    ensures { result ≡ width_of size }
{
    match size {
        Size::B => Width::B,
        Size::H => Width::H,
        Size::W => Width::W,
    }
}

/// The low part of a word at a size.
pub(crate) fn low(size: Size, v: u32) -> u32
    ensures { result ≡ low_part (bits_of size) v }
{
    match size {
        Size::B => dream_words::low::<8>(v),
        Size::H => dream_words::low::<16>(v),
        Size::W => dream_words::low::<32>(v),
    }
}

/// A register of a size.
pub(crate) fn part(size: Size, r: &Regs, n: u8) -> u32
    ensures { result ≡ part_of size r.now n }
{
    match size {
        Size::B if n < 4 => r.get(n) & 0xff,
        Size::B => r.get(n - 4) >> 8 & 0xff,
        Size::H => r.get(n) & 0xffff,
        Size::W => r.get(n),
    }
}

/// The first word with the low byte of the second.
#[tactic(auto, using(crate::proofs::Merge::low_byte_is))]
fn merge_byte(old: u32, v: u32) -> u32
    ensures { result ≡ with_low 8 old v }
{
    (old & 0xffff_ff00) | (v & 0xff)
}

/// The first word with the low byte of the second as its second byte.
#[tactic(auto, using(crate::proofs::Merge::second_byte_is))]
fn merge_second(old: u32, v: u32) -> u32
    ensures { result ≡ with_second old v }
{
    (old & 0xffff_0000) | ((v & 0xff) << 8 | (old & 0xff))
}

/// The first word with the low half of the second.
#[tactic(auto, using(crate::proofs::Merge::low_half_is))]
fn merge_half(old: u32, v: u32) -> u32
    ensures { result ≡ with_low 16 old v }
{
    (old & 0xffff_0000) | (v & 0xffff)
}

/// Writes a register of a size, and keeps the other bits.
pub(crate) fn set_part(size: Size, r: &mut Regs, n: u8, v: u32)
    ensures { r.new ≡ with_part size r.old n v }
{
    match size {
        Size::B if n < 4 => r.set(n, merge_byte(r.get(n), v)),
        Size::B => r.set(n - 4, merge_second(r.get(n - 4), v)),
        Size::H => r.set(n, merge_half(r.get(n), v)),
        Size::W => r.set(n, v),
    }
}

fn reg_or_0(n: Option<u8>, r: &Regs) -> u32
    ensures { result ≡ reg_or_zero n r.now }
{
    match n {
        Some(n) => r.get(n),
        None => 0,
    }
}

/// The base of a segment.
pub(crate) fn base(seg: Seg, fs: u32, gs: u32) -> u32
    ensures { result ≡ base_of seg fs gs }
{
    match seg {
        Seg::None => 0,
        Seg::Fs => fs,
        Seg::Gs => gs,
    }
}

/// The address of a memory operand.
pub(crate) fn address(m: &Mem, r: &Regs, fs: u32, gs: u32) -> u32
    ensures { result ≡ address_of m.now r.now fs gs }
{
    reg_or_0(m.base, r)
        .wrapping_add(reg_or_0(m.index, r).wrapping_mul(u32::from(m.scale)))
        .wrapping_add(m.disp)
        .wrapping_add(base(m.seg, fs, gs))
}

/// The value of an operand.
pub(crate) fn value(size: Size, s: &Operand, a: &Step) -> u32
    ensures { result ≡ value_of size s.now a.now }
{
    match s {
        Operand::Reg(n) => part(size, &a.regs, *n),
        Operand::Mem(_) => low(size, a.first),
        Operand::Imm(k) => low(size, *k),
    }
}

/// How far a shift goes.
pub(crate) fn count(n: &Count, a: &Step) -> u32
    ensures { result ≡ count_of n.now a.now }
{
    match n {
        Count::One => 1,
        Count::Imm(k) => u32::from(*k) & 31,
        Count::Cl => a.regs.ecx & 31,
    }
}
