//! Numbers in digits: what they write, and whether they are those of a number.

ghost use Rattle.std.specs.Prelude.{◌≡◌, ◌<◌, ◌≤◌, ◌+◌, ◌*◌, ◌%◌, ◌^◌, ◌++◌, codes, false};
ghost use Rattle.std.specs.Str.{bytes_eq};
ghost use Rattle.std.specs.Fmt.{digit_glyph, digits};
ghost use Rattle.c_syntax.specs.Spelling.{decimal, function_text, num_text};
ghost use Rattle.c_lex.specs.Candidates as by_bytes;

use c_print::eight_digits;
use itoa::Buffer;

/// What a digit counts.
fn value(digit: u8) -> u8
    ensures { result ≡ by_bytes.value digit }
{
    if digit < 58 {
        digit.saturating_sub(48)
    } else {
        digit.saturating_sub(87)
    }
}

/// The word so far with one digit more.
fn with_digit(base: u32, n: u32, digit: u8) -> u32
    requires { base ≤ 16 }
    ensures { result ≡ (base * n + by_bytes.value digit) % 2 ^ 32 }
{
    let whole = u64::from(base) * u64::from(n) + u64::from(value(digit));
    (whole % 0x1_0000_0000) as u32
}

/// The word that digits write, up to a `u`.
pub(crate) fn read(base: u32, digits: &[u8]) -> u32
    requires { base ≤ 16 }
    ensures { result ≡ by_bytes.read base 0 digits.now }
{
    let mut n = 0;
    for digit in digits {
        if *digit == b'u' {
            return n;
        }
        n = with_digit(base, n, *digit);
    }
    n
}

fn glyph(digit: u32) -> u8
    requires { digit < 16 }
    ensures { result ≡ digit_glyph false digit }
{
    if digit < 10 {
        b'0' + digit as u8
    } else {
        b'a' + (digit - 10) as u8
    }
}

/// Whether the bytes are `0x` and the digits of a number.
fn is_hexadecimal(n: u32, bytes: &[u8]) -> bool
    ensures { result ≡ bytes_eq bytes.now (codes "0x" ++ digits 16 false n) }
{
    let Some((last, front)) = bytes.split_last() else {
        return false;
    };
    if *last == glyph(n % 16) {
        if n < 16 {
            front == b"0x".as_slice()
        } else {
            is_hexadecimal(n / 16, front)
        }
    } else {
        false
    }
}

/// Whether the bytes are those of a number.
pub(crate) fn is_number(n: u32, bytes: &[u8]) -> bool
    ensures { result ≡ bytes_eq bytes.now (num_text n) }
{
    let Some((last, front)) = bytes.split_last() else {
        return false;
    };
    if *last == b'u' {
        is_hexadecimal(n, front)
    } else {
        false
    }
}

/// Whether the bytes are two texts one after the other.
fn is_joined(first: &[u8], second: &[u8], bytes: &[u8]) -> bool
    ensures { result ≡ bytes_eq bytes.now (first.now ++ second.now) }
{
    let n = first.len();
    if bytes.len() < n {
        return false;
    }
    &bytes[..n] == first && &bytes[n..] == second
}

/// Whether the bytes are the name of the function at an address.
pub(crate) fn is_function(address: u32, bytes: &[u8]) -> bool
    ensures { result ≡ bytes_eq bytes.now (function_text address) }
{
    is_joined(b"f_", &eight_digits(address), bytes)
}

/// Whether the bytes are the letter of a kind of locals and a number.
pub(crate) fn is_local(letter: &[u8], n: u32, bytes: &[u8]) -> bool
    ensures { result ≡ bytes_eq bytes.now (letter.now ++ decimal n) }
{
    is_joined(letter, Buffer::new().format(n).as_bytes(), bytes)
}
