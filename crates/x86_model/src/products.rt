//! The rows of products and quotients.

ghost use Rattle.std.specs.Prelude.{◌≡◌, ◌*◌, ◌%◌, ◌^◌};
ghost use Rattle.dream_words.specs.Words.{IsSize, high_product, high_signed_product, quotient_of, signed_quotient_of};
ghost use Rattle.x86_model.specs.Operands.{bits_of};
ghost use Rattle.x86_model.specs.Arithmetic.{product_overflows, sign_copies};
ghost use Rattle.x86_model.specs.WideRows.{undefined_result, with_pair, high_of, mul_row, divided, div_row, idiv_row, product_flags, imul_wide_row, times_row, imul2_row, imul3_row};

use crate::arithmetic::{flag_if, sign_copies};
use crate::effect::{Effect, Go, Step};
use crate::effects::{done, goes, put};
use crate::operands::{low, part, set_part, value};
use dream_words::{Bit, Flags, Regs, div_s, div_u, mul_hi_s, mul_hi_u};
use x86_inst::{Operand, Size};

/// Flags of which only CF and OF may be defined.
pub(crate) fn undefined_result(c: Bit, o: Bit) -> Flags
    ensures { result ≡ undefined_result c o }
{
    Flags {
        c,
        p: Bit::Undefined,
        z: Bit::Undefined,
        s: Bit::Undefined,
        o,
    }
}

/// Writes a pair of words to AX, DX:AX or EDX:EAX.
fn set_pair(size: Size, r: &mut Regs, hi: u32, lo: u32)
    ensures { r.new ≡ with_pair size r.old hi lo }
{
    set_part(size, r, 0, lo);
    match size {
        Size::B => set_part(size, r, 4, hi),
        _ => set_part(size, r, 2, hi),
    }
}

/// The high word of a dividend: AH, DX or EDX.
fn high(size: Size, r: &Regs) -> u32
    ensures { result ≡ high_of size r.now }
{
    match size {
        Size::B => part(size, r, 4),
        _ => part(size, r, 2),
    }
}

/// The low half of a product, signed or not.
fn low_product(size: Size, x: u32, y: u32) -> u32
    ensures { result ≡ x * y % 2 ^ bits_of size }
{
    low(size, x.wrapping_mul(y))
}

/// The high half of an unsigned product.
fn high_product(size: Size, x: u32, y: u32) -> u32
    ensures { result ≡ high_product (bits_of size) x y }
{
    match size {
        Size::B => mul_hi_u::<8>(x, y),
        Size::H => mul_hi_u::<16>(x, y),
        Size::W => mul_hi_u::<32>(x, y),
    }
}

/// The high half of a signed product.
fn high_signed_product(size: Size, x: u32, y: u32) -> u32
    ensures { result ≡ high_signed_product (bits_of size) x y }
{
    match size {
        Size::B => mul_hi_s::<8>(x, y),
        Size::H => mul_hi_s::<16>(x, y),
        Size::W => mul_hi_s::<32>(x, y),
    }
}

/// A signed product doesn't fit: its high half isn't the sign of the low one.
#[tactic(auto, using(crate::proofs::Halves::overflows_by_word))]
fn overflows<const BITS: u32>(x: u32, y: u32) -> bool
    requires { IsSize BITS }
    ensures { result ≡ product_overflows BITS x y }
{
    mul_hi_s::<BITS>(x, y) != sign_copies::<BITS>(x.wrapping_mul(y))
}

/// The flags of a signed product.
fn product_flags(size: Size, x: u32, y: u32) -> Flags
    ensures { result ≡ product_flags (bits_of size) x y }
{
    let over = match size {
        Size::B => overflows::<8>(x, y),
        Size::H => overflows::<16>(x, y),
        Size::W => overflows::<32>(x, y),
    };
    undefined_result(flag_if(over), flag_if(over))
}

/// MUL.
pub(crate) fn mul(size: Size, s: &Operand, a: &Step) -> Effect
    ensures { result ≡ mul_row size s.now a.now }
{
    let x = part(size, &a.regs, 0);
    let y = value(size, s, a);
    let hi = high_product(size, x, y);
    let over = flag_if(hi != 0);
    let mut e = done(a, undefined_result(over, over));
    set_pair(size, &mut e.regs, hi, low_product(size, x, y));
    e
}

/// IMUL of one operand.
pub(crate) fn imul_wide(size: Size, s: &Operand, a: &Step) -> Effect
    ensures { result ≡ imul_wide_row size s.now a.now }
{
    let x = part(size, &a.regs, 0);
    let y = value(size, s, a);
    let mut e = done(a, product_flags(size, x, y));
    let hi = high_signed_product(size, x, y);
    set_pair(size, &mut e.regs, hi, low_product(size, x, y));
    e
}

/// A signed product whose low half goes to a register.
fn times(size: Size, d: u8, x: u32, y: u32, a: &Step) -> Effect
    ensures { result ≡ times_row size d x y a.now }
{
    let e = done(a, product_flags(size, x, y));
    put(size, &Operand::Reg(d), low_product(size, x, y), a, e)
}

/// IMUL of two operands.
pub(crate) fn imul2(size: Size, d: u8, s: &Operand, a: &Step) -> Effect
    ensures { result ≡ imul2_row size d s.now a.now }
{
    times(size, d, part(size, &a.regs, d), value(size, s, a), a)
}

/// IMUL of three operands.
pub(crate) fn imul3(size: Size, d: u8, s: &Operand, k: u32, a: &Step) -> Effect
    ensures { result ≡ imul3_row size d s.now k a.now }
{
    times(size, d, value(size, s, a), low(size, k), a)
}

/// The end of a division: the fault of the vector 0 where there is no quotient.
fn divided(pair: Option<(u32, u32)>, size: Size, a: &Step) -> Effect
    ensures { result ≡ divided pair size a.now }
{
    match pair {
        Some((quotient, remainder)) => {
            let mut e = done(a, undefined_result(Bit::Undefined, Bit::Undefined));
            set_pair(size, &mut e.regs, remainder, quotient);
            e
        }
        None => goes(Go::Fault(0), a),
    }
}

/// Quotient and remainder of words.
fn quotient(size: Size, hi: u32, lo: u32, d: u32) -> Option<(u32, u32)>
    ensures { result ≡ quotient_of (bits_of size) hi lo d }
{
    match size {
        Size::B => div_u::<8>(hi, lo, d),
        Size::H => div_u::<16>(hi, lo, d),
        Size::W => div_u::<32>(hi, lo, d),
    }
}

/// DIV.
pub(crate) fn div(size: Size, s: &Operand, a: &Step) -> Effect
    ensures { result ≡ div_row size s.now a.now }
{
    let hi = high(size, &a.regs);
    let lo = part(size, &a.regs, 0);
    divided(quotient(size, hi, lo, value(size, s, a)), size, a)
}

/// Quotient and remainder of signed words.
fn signed_quotient(size: Size, hi: u32, lo: u32, d: u32) -> Option<(u32, u32)>
    ensures { result ≡ signed_quotient_of (bits_of size) hi lo d }
{
    match size {
        Size::B => div_s::<8>(hi, lo, d),
        Size::H => div_s::<16>(hi, lo, d),
        Size::W => div_s::<32>(hi, lo, d),
    }
}

/// IDIV.
pub(crate) fn idiv(size: Size, s: &Operand, a: &Step) -> Effect
    ensures { result ≡ idiv_row size s.now a.now }
{
    let hi = high(size, &a.regs);
    let lo = part(size, &a.regs, 0);
    divided(signed_quotient(size, hi, lo, value(size, s, a)), size, a)
}
