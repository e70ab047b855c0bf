//! Words of 8, 16 or 32 bits.
//!
//! Each function reads just the low bits of its arguments, except where it says 32-bit.

ghost use Rattle.std.specs.Prelude.{◌≡◌, int_lt, min};
ghost use Rattle.dream_words.specs.Words.{IsSize, low_part, sign_bit, sign_extended, carries, sum_overflows, borrows, difference_overflows, high_product, quotient_of, has_even_ones, lowest_one, highest_one, shifted_signed, signed_part};

/// The low bits of a word.
pub fn low<const BITS: u32>(v: u32) -> u32
    requires { IsSize BITS }
    ensures { result ≡ low_part BITS v }
{
    v & (u32::MAX >> (32 - BITS))
}

/// The top one of the low bits.
pub fn sign<const BITS: u32>(v: u32) -> bool
    requires { IsSize BITS }
    ensures { result ≡ sign_bit BITS v }
{
    low::<BITS>(v) >= 1 << (BITS - 1)
}

/// The low bits extended to 32 by copies of the sign.
pub fn sx<const BITS: u32>(v: u32) -> u32
    requires { IsSize BITS }
    ensures { result ≡ sign_extended BITS v }
{
    let low = low::<BITS>(v);
    if sign::<BITS>(v) {
        // 2^BITS is taken away, which is 0 at 32 bits.
        low.wrapping_sub(1 << (BITS - 1) << 1)
    } else {
        low
    }
}

/// The carry of a sum, with the carry that comes in.
pub fn carry_add<const BITS: u32>(a: u32, b: u32, c: bool) -> bool
    requires { IsSize BITS }
    ensures { result ≡ carries BITS a b c }
{
    u64::from(low::<BITS>(a)) + u64::from(low::<BITS>(b)) + u64::from(c) >= 1 << BITS
}

/// The signed overflow of a sum, with the carry that comes in.
#[tactic(auto, using(crate::proofs::Overflows::sum_overflows_by_bits))]
pub fn over_add<const BITS: u32>(a: u32, b: u32, c: bool) -> bool
    requires { IsSize BITS }
    ensures { result ≡ sum_overflows BITS a b c }
{
    let sum = a.wrapping_add(b).wrapping_add(u32::from(c));
    sign::<BITS>((a ^ sum) & (b ^ sum))
}

/// The borrow of a difference, with the borrow that comes in.
pub fn borrow<const BITS: u32>(a: u32, b: u32, c: bool) -> bool
    requires { IsSize BITS }
    ensures { result ≡ borrows BITS a b c }
{
    u64::from(low::<BITS>(a)) < u64::from(low::<BITS>(b)) + u64::from(c)
}

/// The signed overflow of a difference, with the borrow that comes in.
#[tactic(auto, using(crate::proofs::Overflows::difference_overflows_by_bits))]
pub fn over_sub<const BITS: u32>(a: u32, b: u32, c: bool) -> bool
    requires { IsSize BITS }
    ensures { result ≡ difference_overflows BITS a b c }
{
    let difference = a.wrapping_sub(b).wrapping_sub(u32::from(c));
    sign::<BITS>((a ^ b) & (a ^ difference))
}

/// The high half of the product.
pub fn mul_hi_u<const BITS: u32>(a: u32, b: u32) -> u32
    requires { IsSize BITS }
    ensures { result ≡ high_product BITS a b }
{
    (u64::from(low::<BITS>(a)) * u64::from(low::<BITS>(b)) >> BITS) as u32
}

/// Quotient and remainder of `hi:lo` by `d`, where `d` isn't 0 and the quotient fits.
pub fn div_u<const BITS: u32>(hi: u32, lo: u32, d: u32) -> Option<(u32, u32)>
    requires { IsSize BITS }
    ensures { result ≡ quotient_of BITS hi lo d }
{
    let n = u64::from(low::<BITS>(hi)) * (1 << BITS) + u64::from(low::<BITS>(lo));
    let d = u64::from(low::<BITS>(d));
    if d == 0 || n / d >= 1 << BITS {
        return None;
    }
    Some(((n / d) as u32, (n % d) as u32))
}

/// The low byte has an even number of ones.
pub fn parity(v: u32) -> bool
    ensures { result ≡ has_even_ones v }
{
    (v & 0xff).count_ones() % 2 == 0
}

/// The place of the lowest 1 of a 32-bit word; 31 where there is none.
pub fn lowest_one(v: u32) -> u32
    ensures { result ≡ lowest_one 31 v }
{
    v.trailing_zeros().min(31)
}

/// The place of the highest 1 of a 32-bit word; 0 where there is none.
pub fn highest_one(v: u32) -> u32
    ensures { result ≡ highest_one 32 v }
{
    v.checked_ilog2().unwrap_or(0)
}

/// A 32-bit word shifted to the right, with copies of its top bit from above; by 31 where the
/// count is greater.
pub fn shifted_signed(v: u32, count: u32) -> u32
    ensures { result ≡ shifted_signed v (min count 31) }
{
    let count = count.min(31);
    if sign::<32>(v) {
        !(!v >> count)
    } else {
        v >> count
    }
}

/// A 32-bit word is below another, as signed numbers.
pub fn less_signed(a: u32, b: u32) -> bool
    ensures { result ≡ int_lt (signed_part 32 a) (signed_part 32 b) }
{
    a.cast_signed() < b.cast_signed()
}
