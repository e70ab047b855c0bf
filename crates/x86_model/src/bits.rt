//! The rows of tests of bits, scans, extensions and the order of bytes.

ghost use Rattle.std.specs.Prelude.{◌≡◌, ◌-◌, ◌^◌, ◌<◌, if◌then◌else◌};
ghost use Rattle.dream_words.specs.Words.{sign_bit, sign_extended};
ghost use Rattle.x86_model.specs.Operands.{bits_of};
ghost use Rattle.x86_model.specs.Arithmetic.{sign_copies};
ghost use Rattle.x86_model.specs.Rows.{movx_row, half_of, widen_row, spread_row, swapped, bswap_row};
ghost use Rattle.x86_model.specs.WideRows.{bit_value, bit_flags, bit_written, bit_row, place_of, scan_flags, scan_row};

use crate::arithmetic::{flag_if, sign_copies};
use crate::effect::{Effect, Step};
use crate::effects::{done, put, stray};
use crate::operands::{bits, part, value};
use crate::products::undefined_result;
use dream_words::{Bit, Flags, highest_one, lowest_one, sx};
use x86_inst::{BitOp, Operand, Size};

/// A word with a bit kept, set, cleared or flipped.
fn bit_value(op: BitOp, size: Size, x: u32, n: u32) -> u32
    requires { n < bits_of size }
    ensures { result ≡ bit_value op (bits_of size) x n }
{
    let bit = 1 << n;
    match op {
        BitOp::Bt => x,
        BitOp::Bts => x | bit,
        BitOp::Btr => x & (ones(size) - bit),
        BitOp::Btc => x ^ bit,
    }
}

/// The greatest word of a size.
fn ones(size: Size) -> u32
    ensures { result ≡ 2 ^ bits_of size - 1 }
{
    match size {
        Size::B => 0xff,
        Size::H => 0xffff,
        Size::W => 0xffff_ffff,
    }
}

/// The flags after a bit was looked at.
fn bit_flags(b: bool, f: &Flags) -> Flags
    ensures { result ≡ bit_flags b f.now }
{
    Flags {
        z: f.z,
        ..undefined_result(flag_if(b), Bit::Undefined)
    }
}

/// Writes the word, but for BT.
fn bit_written(op: BitOp, size: Size, d: &Operand, v: u32, a: &Step, e: Effect) -> Effect
    ensures { result ≡ bit_written op size d.now v a.now e }
{
    match op {
        BitOp::Bt => e,
        _ => put(size, d, v, a, e),
    }
}

/// BT, BTS, BTR, BTC.
pub(crate) fn bit(op: BitOp, size: Size, d: &Operand, s: &Operand, a: &Step) -> Effect
    ensures { result ≡ bit_row op size d.now s.now a.now }
{
    let x = value(size, d, a);
    let n = value(size, s, a) % bits(size);
    let e = done(a, bit_flags((x >> n) & 1 == 1, &a.flags));
    bit_written(op, size, d, bit_value(op, size, x, n), a, e)
}

/// The place of the lowest or the highest set bit.
fn place_of(up: bool, x: u32) -> u32
    ensures { result ≡ place_of up x }
{
    if up { lowest_one(x) } else { highest_one(x) }
}

/// The flags of a scan.
fn scan_flags(tz: bool) -> Flags
    ensures { result ≡ scan_flags tz }
{
    Flags {
        z: if tz { Bit::Undefined } else { Bit::Zero },
        ..undefined_result(Bit::Undefined, Bit::Undefined)
    }
}

/// BSF and BSR.
pub(crate) fn scan(up: bool, size: Size, d: u8, s: &Operand, tz: bool, a: &Step) -> Effect
    ensures { result ≡ scan_row up size d s.now tz a.now }
{
    let x = value(size, s, a);
    if x == 0 {
        return stray(a);
    }
    let e = done(a, scan_flags(tz));
    put(size, &Operand::Reg(d), place_of(up, x), a, e)
}

/// A word of a size extended by its sign.
fn extended(size: Size, v: u32) -> u32
    ensures { result ≡ sign_extended (bits_of size) v }
{
    match size {
        Size::B => sx::<8>(v),
        Size::H => sx::<16>(v),
        Size::W => sx::<32>(v),
    }
}

/// MOVSX and MOVZX.
pub(crate) fn movx(signed: bool, from: Size, to: Size, d: u8, s: &Operand, a: &Step) -> Effect
    ensures { result ≡ movx_row signed from to d s.now a.now }
{
    let v = value(from, s, a);
    let wide = if signed { extended(from, v) } else { v };
    put(to, &Operand::Reg(d), wide, a, done(a, a.flags))
}

/// The size below.
fn half(size: Size) -> Size
    ensures { result ≡ half_of size }
{
    match size {
        Size::W => Size::H,
        _ => Size::B,
    }
}

/// CBW and CWDE.
pub(crate) fn widen(size: Size, a: &Step) -> Effect
    ensures { result ≡ widen_row size a.now }
{
    let from = half(size);
    let wide = extended(from, part(from, &a.regs, 0));
    put(size, &Operand::Reg(0), wide, a, done(a, a.flags))
}

/// CWD and CDQ.
pub(crate) fn spread(size: Size, a: &Step) -> Effect
    ensures { result ≡ spread_row size a.now }
{
    let low = part(size, &a.regs, 0);
    let copies = match size {
        Size::B => sign_copies::<8>(low),
        Size::H => sign_copies::<16>(low),
        Size::W => sign_copies::<32>(low),
    };
    put(size, &Operand::Reg(2), copies, a, done(a, a.flags))
}

/// A word with its bytes in the other order.
fn swapped(v: u32) -> u32
    ensures { result ≡ swapped v }
{
    v.swap_bytes()
}

/// BSWAP.
pub(crate) fn bswap(n: u8, a: &Step) -> Effect
    ensures { result ≡ bswap_row n a.now }
{
    let v = swapped(a.regs.get(n));
    put(Size::W, &Operand::Reg(n), v, a, done(a, a.flags))
}
