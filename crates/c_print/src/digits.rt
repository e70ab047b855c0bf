//! Numbers in digits.

ghost use Rattle.std.specs.Prelude.{◌≡◌, ◌<◌, ℕ, false, slice_index};
ghost use Rattle.std.specs.Fmt.{digit_glyph, digits};
ghost use Rattle.c_syntax.specs.Spelling.{decimal, last_digits, num_text, function_text};
ghost use Rattle.c_print.specs.Page.{puts};

use crate::page::Page;
use itoa::Buffer;

fn glyph(digit: u32) -> u8
    requires { digit < 16 }
    ensures value { result ≡ digit_glyph false digit }
    ensures ascii { result < 128 }
{
    if digit < 10 {
        b'0' + digit as u8
    } else {
        b'a' + (digit - 10) as u8
    }
}

/// A number in eight hexadecimal digits, the highest first.
pub fn eight_digits(n: u32) -> [u8; 8]
    ensures value { result ≡ last_digits 8 n }
    ensures ascii { (k : ℕ) → slice_index result k < 128 }
{
    let a = n / 16;
    let b = a / 16;
    let c = b / 16;
    let d = c / 16;
    let e = d / 16;
    let f = e / 16;
    let g = f / 16;
    [
        glyph(g % 16),
        glyph(f % 16),
        glyph(e % 16),
        glyph(d % 16),
        glyph(c % 16),
        glyph(b % 16),
        glyph(a % 16),
        glyph(n % 16),
    ]
}

/// Puts a number in hexadecimal digits without a leading zero.
fn put_hexadecimal(n: u32, page: &mut Page)
    ensures { page.new ≡ puts page.old (digits 16 false n) }
{
    if n >= 16 {
        put_hexadecimal(n / 16, page);
        page.put(&[glyph(n % 16)]);
    } else {
        page.put(&[glyph(n)]);
    }
}

/// Puts a number in decimal digits without a leading zero.
pub(crate) fn put_decimal(n: u32, page: &mut Page)
    ensures { page.new ≡ puts page.old (decimal n) }
{
    page.put(Buffer::new().format(n).as_bytes());
}

/// Puts a number.
pub(crate) fn put_number(n: u32, page: &mut Page)
    ensures { page.new ≡ puts page.old (num_text n) }
{
    page.put(b"0x");
    put_hexadecimal(n, page);
    page.put(b"u");
}

/// Puts the name of a function, by its address.
pub(crate) fn put_function(address: u32, page: &mut Page)
    ensures { page.new ≡ puts page.old (function_text address) }
{
    page.put(b"f_");
    page.put(&eight_digits(address));
}
