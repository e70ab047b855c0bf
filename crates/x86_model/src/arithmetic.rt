//! Results and flags of the operations on two words.

ghost use Rattle.std.specs.Prelude.{◌≡◌};
ghost use Rattle.x86_model.specs.Operands.{bits_of};
ghost use Rattle.x86_model.specs.Arithmetic.{flag_if, by_result, sum_of, sum_flags, difference_of, difference_flags, logic_flags, alu_value, alu_flags, sign_copies};
ghost use Rattle.dream_words.specs.Words.{IsSize};

use dream_words::{Bit, Flags, borrow, carry_add, low, over_add, over_sub, parity, sign};
use x86_inst::{AluOp, Size};

/// A result and the flags with it.
#[derive(Clone, Copy)]
pub(crate) struct Computed {
    pub(crate) value: u32,
    pub(crate) flags: Flags,
}

/// A truth as a flag.
pub(crate) fn flag_if(b: bool) -> Bit
    ensures { result ≡ flag_if b }
{
    if b { Bit::One } else { Bit::Zero }
}

/// Copies of the sign of the low bits.
pub(crate) fn sign_copies<const BITS: u32>(v: u32) -> u32
    requires { IsSize BITS }
    ensures { result ≡ sign_copies BITS v }
{
    if sign::<BITS>(v) {
        u32::MAX >> (32 - BITS)
    } else {
        0
    }
}

/// SF, ZF and PF by a result.
pub(crate) fn by_result<const BITS: u32>(v: u32, c: Bit, o: Bit) -> Flags
    requires { IsSize BITS }
    ensures { result ≡ by_result BITS v c o }
{
    Flags {
        c,
        p: flag_if(parity(v)),
        z: flag_if(low::<BITS>(v) == 0),
        s: flag_if(sign::<BITS>(v)),
        o,
    }
}

/// A sum with its carry.
#[tactic(auto, using(crate::proofs::Sums::sum_is))]
fn sum<const BITS: u32>(x: u32, y: u32, c: bool) -> u32
    requires { IsSize BITS }
    ensures { result ≡ sum_of BITS x y c }
{
    low::<BITS>(x.wrapping_add(y).wrapping_add(u32::from(c)))
}

/// A difference with its borrow.
#[tactic(auto, using(crate::proofs::Sums::difference_is))]
fn difference<const BITS: u32>(x: u32, y: u32, c: bool) -> u32
    requires { IsSize BITS }
    ensures { result ≡ difference_of BITS x y c }
{
    low::<BITS>(x.wrapping_sub(y).wrapping_sub(u32::from(c)))
}

/// A sum and its flags.
fn added<const BITS: u32>(x: u32, y: u32, c: bool) -> Computed
    requires { IsSize BITS }
    ensures value { result.value ≡ sum_of BITS x y c }
    ensures flags { result.flags ≡ sum_flags BITS x y c }
{
    let value = sum::<BITS>(x, y, c);
    let carry = flag_if(carry_add::<BITS>(x, y, c));
    let over = flag_if(over_add::<BITS>(x, y, c));
    Computed {
        value,
        flags: by_result::<BITS>(value, carry, over),
    }
}

/// A difference and its flags.
fn subtracted<const BITS: u32>(x: u32, y: u32, c: bool) -> Computed
    requires { IsSize BITS }
    ensures value { result.value ≡ difference_of BITS x y c }
    ensures flags { result.flags ≡ difference_flags BITS x y c }
{
    let value = difference::<BITS>(x, y, c);
    let carry = flag_if(borrow::<BITS>(x, y, c));
    let over = flag_if(over_sub::<BITS>(x, y, c));
    Computed {
        value,
        flags: by_result::<BITS>(value, carry, over),
    }
}

/// A result of And, Or or Xor and its flags.
fn combined<const BITS: u32>(v: u32) -> Computed
    requires { IsSize BITS }
    ensures value { result.value ≡ v }
    ensures flags { result.flags ≡ logic_flags BITS v }
{
    Computed {
        value: v,
        flags: by_result::<BITS>(v, Bit::Zero, Bit::Zero),
    }
}

/// An operation at a size in bits.
fn alu_bits<const BITS: u32>(op: AluOp, x: u32, y: u32, c: bool) -> Computed
    requires { IsSize BITS }
    ensures value { result.value ≡ alu_value op BITS x y c }
    ensures flags { result.flags ≡ alu_flags op BITS x y c }
{
    match op {
        AluOp::Add => added::<BITS>(x, y, false),
        AluOp::Or => combined::<BITS>(x | y),
        AluOp::Adc => added::<BITS>(x, y, c),
        AluOp::Sbb => subtracted::<BITS>(x, y, c),
        AluOp::And => combined::<BITS>(x & y),
        AluOp::Sub => subtracted::<BITS>(x, y, false),
        AluOp::Xor => combined::<BITS>(x ^ y),
        AluOp::Cmp => subtracted::<BITS>(x, y, false),
    }
}

/// An operation at a size.
pub(crate) fn alu(op: AluOp, size: Size, x: u32, y: u32, c: bool) -> Computed
    ensures value { result.value ≡ alu_value op (bits_of size) x y c }
    ensures flags { result.flags ≡ alu_flags op (bits_of size) x y c }
{
    match size {
        Size::B => alu_bits::<8>(op, x, y, c),
        Size::H => alu_bits::<16>(op, x, y, c),
        Size::W => alu_bits::<32>(op, x, y, c),
    }
}
