//! Numbers in words of the command line.

ghost use Rattle.std.specs.Prelude.{◌≡◌, ◌≤◌, ◌<◌, IfSome};
ghost use Rattle.run_lines.specs.Numbers.{hex_digit as hex_digit_of, digit_of, number_of, long_of, within as within_of, value_of, count_of};

// The value of a hexadecimal digit of either case.
fn hex_digit(byte: u8) -> Option<u8>
    ensures { result ≡ hex_digit_of byte }
{
    match byte {
        b'0'..=b'9' => Some(byte - b'0'),
        b'a'..=b'f' => Some(byte - b'a' + 10),
        b'A'..=b'F' => Some(byte - b'A' + 10),
        _ => None,
    }
}

// The value of a digit in a base of at most 16.
fn digit(byte: u8, base: u8) -> Option<u8>
    ensures value { result ≡ digit_of base byte }
    ensures small { IfSome result (λ digit. digit < base) }
{
    let digit = hex_digit(byte)?;
    if digit < base { Some(digit) } else { None }
}

// The value of digits in a base, of which there is one at least, and so many at most.
fn number(digits: &str, base: u8, most: usize) -> Option<u64>
    requires base { base ≤ 16 }
    requires most { most ≤ 10 }
    ensures { result ≡ number_of base most digits.now }
{
    if digits.is_empty() || digits.len() > most {
        return None;
    }
    let mut value = 0;
    for byte in digits.as_bytes() {
        value = u64::from(base) * value + u64::from(digit(*byte, base)?);
    }
    Some(value)
}

// `0x` and one to eight hexadecimal digits, or one to ten decimal digits.
fn long(word: &str) -> Option<u64>
    ensures { result ≡ long_of word.now }
{
    match word.strip_prefix("0x") {
        Some(digits) => number(digits, 16, 8),
        None => number(word, 10, 10),
    }
}

// A number that is neither below the least nor above the greatest.
fn within(number: u64, least: u32, most: u32) -> Option<u32>
    ensures { result ≡ within_of least most number }
{
    if u64::from(least) <= number && number <= u64::from(most) {
        Some(number as u32)
    } else {
        None
    }
}

/// The value of a word: `0x` and one to eight hexadecimal digits of either case, or one to ten decimal digits of a
/// number below 2^32. Digits may begin with zeros.
pub fn value(word: &str) -> Option<u32>
    ensures { result ≡ value_of word.now }
{
    within(long(word)?, 0, u32::MAX)
}

/// A count: one to ten decimal digits of a number that is neither below the least nor above the greatest.
pub fn count(word: &str, least: u32, most: u32) -> Option<u32>
    ensures { result ≡ count_of least most word.now }
{
    within(number(word, 10, 10)?, least, most)
}
