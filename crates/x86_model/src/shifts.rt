//! The rows of shifts and rotations.

ghost use Rattle.std.specs.Prelude.{◌≡◌, ◌*◌, ◌/◌, ◌%◌, ◌^◌, ◌<◌, ◌≤◌, ◌-◌, ◌==◌};
ghost use Rattle.dream_words.specs.Words.{IsSize, sign_bit};
ghost use Rattle.x86_model.specs.Operands.{bits_of};
ghost use Rattle.x86_model.specs.Arithmetic.{shifted_signed_at};
ghost use Rattle.x86_model.specs.WideRows.{shift_value, rotate_of, where_true, shift_flags, shift_none, shift_row, double_value, double_out, double_flags, double_row};

use crate::arithmetic::{by_result, flag_if};
use crate::effect::{Effect, Step};
use crate::effects::{done, put};
use crate::operands::{count, value};
use dream_words::{Bit, Flags, low, sign};
use x86_inst::{Count, Operand, ShiftOp, Size};

/// A flag that is defined only where the test holds.
fn where_true(test: bool, v: bool) -> Bit
    ensures { result ≡ where_true test v }
{
    if test { flag_if(v) } else { Bit::Undefined }
}

/// A word of a size shifted right, with copies of its top bit from above.
fn shifted_signed<const BITS: u32>(x: u32, n: u32) -> u32
    requires size { IsSize BITS }
    requires count { n < 32 }
    requires part { x < 2 ^ BITS }
    ensures { result ≡ shifted_signed_at BITS x n }
{
    let ones = u32::MAX >> (32 - BITS);
    if sign::<BITS>(x) {
        ones - ((ones - x) >> n)
    } else {
        x >> n
    }
}

/// A rotation to the left.
fn rotated<const BITS: u32>(x: u32, k: u32) -> u32
    requires size { IsSize BITS }
    requires count { k ≤ BITS }
    requires part { x < 2 ^ BITS }
    ensures { result ≡ rotate_of BITS x k }
{
    let whole = ((u64::from(x) << k) & 0xffff_ffff) + (u64::from(x) >> (BITS - k));
    low::<BITS>((whole & 0xffff_ffff) as u32)
}

/// The result of a shift or a rotation.
fn shifted<const BITS: u32>(op: ShiftOp, x: u32, n: u32) -> u32
    requires size { IsSize BITS }
    requires count { n < 32 }
    requires part { x < 2 ^ BITS }
    ensures { result ≡ shift_value op BITS x n }
{
    match op {
        ShiftOp::Shl => low::<BITS>(x << n),
        ShiftOp::Shr => x >> n,
        ShiftOp::Sar => shifted_signed::<BITS>(x, n),
        ShiftOp::Rol => rotated::<BITS>(x, n % BITS),
        ShiftOp::Ror => rotated::<BITS>(x, BITS - n % BITS),
    }
}

/// The last bit that a shift to the left takes out.
fn out_left<const BITS: u32>(x: u32, n: u32) -> bool
    requires size { IsSize BITS }
    requires count { n < 32 }
    ensures { result ≡ (x * 2 ^ n / 2 ^ BITS % 2 == 1) }
{
    (u64::from(x) << n >> BITS) & 1 == 1
}

/// The bit below the top one.
fn second_top<const BITS: u32>(v: u32) -> bool
    requires { IsSize BITS }
    ensures { result ≡ sign_bit (BITS - 1) v }
{
    (v >> (BITS - 2)) & 1 == 1
}

/// The flags of a shift or a rotation.
fn shift_flags<const BITS: u32>(op: ShiftOp, x: u32, n: u32, f: Flags) -> Flags
    requires size { IsSize BITS }
    requires count { n < 32 }
    requires some { 0 < n }
    requires part { x < 2 ^ BITS }
    ensures { result ≡ shift_flags op BITS x n f }
{
    let v = shifted::<BITS>(op, x, n);
    match op {
        ShiftOp::Shl => {
            let c = out_left::<BITS>(x, n);
            let o = where_true(n == 1, sign::<BITS>(v) ^ c);
            by_result::<BITS>(v, where_true(n < BITS, c), o)
        }
        ShiftOp::Shr => {
            let c = (x >> (n - 1)) & 1 == 1;
            let o = where_true(n == 1, sign::<BITS>(x));
            by_result::<BITS>(v, where_true(n < BITS, c), o)
        }
        ShiftOp::Sar => {
            let c = shifted_signed::<BITS>(x, n - 1) & 1 == 1;
            by_result::<BITS>(v, flag_if(c), where_true(n == 1, false))
        }
        ShiftOp::Rol => {
            let c = v & 1 == 1;
            Flags {
                c: flag_if(c),
                o: where_true(n == 1, sign::<BITS>(v) ^ c),
                ..f
            }
        }
        ShiftOp::Ror => {
            let c = sign::<BITS>(v);
            Flags {
                c: flag_if(c),
                o: where_true(n == 1, c ^ second_top::<BITS>(v)),
                ..f
            }
        }
    }
}

/// The result at a size.
fn shifted_at(op: ShiftOp, size: Size, x: u32, n: u32) -> u32
    requires count { n < 32 }
    requires part { x < 2 ^ bits_of size }
    ensures { result ≡ shift_value op (bits_of size) x n }
{
    match size {
        Size::B => shifted::<8>(op, x, n),
        Size::H => shifted::<16>(op, x, n),
        Size::W => shifted::<32>(op, x, n),
    }
}

/// The flags at a size.
fn flags_at(op: ShiftOp, size: Size, x: u32, n: u32, f: Flags) -> Flags
    requires count { n < 32 }
    requires some { 0 < n }
    requires part { x < 2 ^ bits_of size }
    ensures { result ≡ shift_flags op (bits_of size) x n f }
{
    match size {
        Size::B => shift_flags::<8>(op, x, n, f),
        Size::H => shift_flags::<16>(op, x, n, f),
        Size::W => shift_flags::<32>(op, x, n, f),
    }
}

/// A count of 0 changes nothing, but by CL memory is stored.
fn shift_none(by: &Count, size: Size, d: &Operand, x: u32, a: &Step) -> Effect
    ensures { result ≡ shift_none by.now size d.now x a.now }
{
    let e = done(a, a.flags);
    match by {
        Count::Cl => put(size, d, x, a, e),
        _ => e,
    }
}

/// ROL, ROR, SHL, SHR, SAR.
pub(crate) fn shift(op: ShiftOp, size: Size, d: &Operand, by: &Count, a: &Step) -> Effect
    ensures { result ≡ shift_row op size d.now by.now a.now }
{
    let x = value(size, d, a);
    let n = count(by, a);
    if n == 0 {
        return shift_none(by, size, d, x, a);
    }
    let e = done(a, flags_at(op, size, x, n, a.flags));
    put(size, d, shifted_at(op, size, x, n), a, e)
}

/// A word shifted, and filled with bits of another.
fn double_value(left: bool, x: u32, y: u32, n: u32) -> u32
    requires some { 0 < n }
    requires count { n < 32 }
    ensures { result ≡ double_value left x y n }
{
    if left {
        (x << n).wrapping_add(y >> (32 - n))
    } else {
        (x >> n).wrapping_add(y << (32 - n))
    }
}

/// The last bit shifted out.
fn double_out(left: bool, x: u32, n: u32) -> bool
    requires some { 0 < n }
    requires count { n < 32 }
    ensures { result ≡ double_out left x n }
{
    if left {
        (x >> (32 - n)) & 1 == 1
    } else {
        (x >> (n - 1)) & 1 == 1
    }
}

/// The flags of a double shift.
fn double_flags(left: bool, x: u32, y: u32, n: u32) -> Flags
    requires some { 0 < n }
    requires count { n < 32 }
    ensures { result ≡ double_flags left x y n }
{
    let v = double_value(left, x, y, n);
    let o = where_true(n == 1, sign::<32>(v) ^ sign::<32>(x));
    by_result::<32>(v, flag_if(double_out(left, x, n)), o)
}

/// SHLD and SHRD.
pub(crate) fn double_shift(left: bool, d: &Operand, g: u8, by: &Count, a: &Step) -> Effect
    ensures { result ≡ double_row left d.now g by.now a.now }
{
    let x = value(Size::W, d, a);
    let y = a.regs.get(g);
    let n = count(by, a);
    if n == 0 {
        return shift_none(by, Size::W, d, x, a);
    }
    let e = done(a, double_flags(left, x, y, n));
    put(Size::W, d, double_value(left, x, y, n), a, e)
}
