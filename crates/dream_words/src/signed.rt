//! Products and quotients of signed words.

ghost use Rattle.std.specs.Prelude.{◌≡◌, ◌+◌, ◌^◌, ◌<◌, pos, unsigned_abs};
ghost use Rattle.std.specs.Int.{int_rem_euclid};
ghost use Rattle.dream_words.specs.Words.{IsSize, fits_signed, high_signed_product, low_part, sign_bit, signed_part, signed_quotient_of, wide_number, word_of};
ghost use Rattle.dream_words.specs.Signed.{differ, signed_by};

use crate::words::{low, sign};

/// The high half of the signed product.
#[tactic(auto, using(crate::proofs::Quotients::product_by_distance))]
pub fn mul_hi_s<const BITS: u32>(a: u32, b: u32) -> u32
    requires { IsSize BITS }
    ensures { result ≡ high_signed_product BITS a b }
{
    let product = magnitude::<BITS>(a) * magnitude::<BITS>(b);
    let negative = differ(sign::<BITS>(a), sign::<BITS>(b));
    (above_multiple(1 << (BITS + BITS), negative, u128::from(product)) >> BITS) as u32
}

/// Quotient and remainder of `hi:lo` by `d` as signed numbers, where `d` isn't 0 and the quotient
/// fits. The quotient is truncated toward 0, and the remainder has the sign of `hi:lo`.
pub fn div_s<const BITS: u32>(hi: u32, lo: u32, d: u32) -> Option<(u32, u32)>
    requires { IsSize BITS }
    ensures { result ≡ signed_quotient_of BITS hi lo d }
{
    if low::<BITS>(d) == 0 {
        return None;
    }
    let divisor = u128::from(magnitude::<BITS>(d));
    let n = wide_magnitude::<BITS>(hi, lo);
    let negative = differ(sign::<BITS>(hi), sign::<BITS>(d));
    if !fits::<BITS>(negative, n / divisor) {
        return None;
    }
    let quotient = word::<BITS>(negative, n / divisor);
    let remainder = word::<BITS>(sign::<BITS>(hi), n % divisor);
    Some((quotient, remainder))
}

/// How far the low bits, read as a signed number, are from 0.
#[tactic(auto, using(crate::proofs::Quotients::low_part_by_distance))]
fn magnitude<const BITS: u32>(v: u32) -> u64
    requires { IsSize BITS }
    ensures value { signed_part BITS v ≡ signed_by (sign_bit BITS v) result }
    ensures small { result < 2 ^ 32 }
    ensures zero { result ≡ 0 → low_part BITS v ≡ 0 }
{
    let low = u64::from(low::<BITS>(v));
    if sign::<BITS>(v) {
        (1 << BITS) - low
    } else {
        low
    }
}

/// How far two words as one number of twice the size, read as a signed number, are from 0.
#[tactic(auto, using(crate::proofs::Quotients::wide_number_by_distance))]
fn wide_magnitude<const BITS: u32>(hi: u32, lo: u32) -> u128
    requires { IsSize BITS }
    ensures value { signed_part (BITS + BITS) (wide_number BITS hi lo) ≡ signed_by (sign_bit BITS hi) result }
{
    let n = u128::from(low::<BITS>(hi)) * (1 << BITS) + u128::from(low::<BITS>(lo));
    if sign::<BITS>(hi) {
        (1 << (BITS + BITS)) - n
    } else {
        n
    }
}

/// A signed word of the size can hold the number.
fn fits<const BITS: u32>(negative: bool, distance: u128) -> bool
    requires { IsSize BITS }
    ensures { result ≡ fits_signed BITS (signed_by negative distance) }
{
    if negative {
        distance <= 1 << (BITS - 1)
    } else {
        distance < 1 << (BITS - 1)
    }
}

/// How far a number is above the next multiple of the modulus that isn't above it.
#[tactic(auto, using(crate::proofs::Quotients::remainder_by_distance))]
fn above_multiple(modulus: u128, negative: bool, distance: u128) -> u128
    requires { 0 < modulus }
    ensures value { result ≡ unsigned_abs (int_rem_euclid (signed_by negative distance) (pos modulus)) }
    ensures small { result < modulus }
{
    let low = distance % modulus;
    if negative {
        (modulus - low) % modulus
    } else {
        low
    }
}

/// The sign of a product and of a quotient.
fn differ(a: bool, b: bool) -> bool
    ensures { result ≡ differ a b }
{
    a ^ b
}

/// A number taken to the size.
fn word<const BITS: u32>(negative: bool, distance: u128) -> u32
    requires { IsSize BITS }
    ensures { result ≡ word_of BITS (signed_by negative distance) }
{
    above_multiple(1 << BITS, negative, distance) as u32
}
