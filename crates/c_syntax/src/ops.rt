//! What the operators and functions of a Word give.

ghost use Rattle.std.specs.Prelude.{◌≡◌};
ghost use Rattle.c_syntax.specs.Words.{bin_of, cmp_of, fn1_of, fn2_of, fn3_of, quotient, remainder};

use crate::syntax::{CBin, CCmp, CFn1, CFn2, CFn3};
use dream_words::{
    div_s, div_u, highest_one, less_signed, lowest_one, mul_hi_s, mul_hi_u, parity, shifted_signed,
    sx,
};

impl CBin {
    /// What the operator gives. None where it is a shift by 32 or more.
    pub fn apply(self, a: u32, b: u32) -> Option<u32>
        ensures { result ≡ bin_of self a b }
    {
        match self {
            CBin::Add => Some(a.wrapping_add(b)),
            CBin::Sub => Some(a.wrapping_sub(b)),
            CBin::Mul => Some(a.wrapping_mul(b)),
            CBin::And => Some(a & b),
            CBin::Or => Some(a | b),
            CBin::Xor => Some(a ^ b),
            CBin::Shl => a.checked_shl(b),
            CBin::Shr => a.checked_shr(b),
        }
    }
}

impl CCmp {
    /// Whether the comparison holds of unsigned words.
    pub fn apply(self, a: u32, b: u32) -> bool
        ensures { result ≡ cmp_of self a b }
    {
        match self {
            CCmp::Eq => a == b,
            CCmp::Ne => a != b,
            CCmp::Lt => a < b,
            CCmp::Le => a <= b,
        }
    }
}

impl CFn1 {
    /// What the function gives.
    pub fn apply(self, a: u32) -> u32
        ensures { result ≡ fn1_of self a }
    {
        match self {
            CFn1::Sx1 => sx::<8>(a),
            CFn1::Sx2 => sx::<16>(a),
            CFn1::Par => u32::from(parity(a)),
            CFn1::Bsf => lowest_one(a),
            CFn1::Bsr => highest_one(a),
        }
    }
}

impl CFn2 {
    /// What the function gives.
    pub fn apply(self, a: u32, b: u32) -> u32
        ensures { result ≡ fn2_of self a b }
    {
        match self {
            CFn2::Sar => shifted_signed(a, b),
            CFn2::Lts => u32::from(less_signed(a, b)),
            CFn2::Mulhu => mul_hi_u::<32>(a, b),
            CFn2::Mulhs => mul_hi_s::<32>(a, b),
        }
    }
}

impl CFn3 {
    /// What the function gives for a high word, a low word and a divisor.
    pub fn apply(self, high: u32, low: u32, divisor: u32) -> u32
        ensures { result ≡ fn3_of self high low divisor }
    {
        match self {
            CFn3::Divubad => u32::from(div_u::<32>(high, low, divisor).is_none()),
            CFn3::Divuq => quotient(div_u::<32>(high, low, divisor)),
            CFn3::Divur => remainder(div_u::<32>(high, low, divisor)),
            CFn3::Divsbad => u32::from(div_s::<32>(high, low, divisor).is_none()),
            CFn3::Divsq => quotient(div_s::<32>(high, low, divisor)),
            CFn3::Divsr => remainder(div_s::<32>(high, low, divisor)),
        }
    }
}

fn quotient(division: Option<(u32, u32)>) -> u32
    ensures { result ≡ quotient division }
{
    match division {
        None => 0,
        Some((quotient, _)) => quotient,
    }
}

fn remainder(division: Option<(u32, u32)>) -> u32
    ensures { result ≡ remainder division }
{
    match division {
        None => 0,
        Some((_, remainder)) => remainder,
    }
}
