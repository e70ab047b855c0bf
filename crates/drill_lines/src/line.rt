//! The line of the counts of a drill.

ghost use Rattle.std.specs.Prelude.{◌≡◌, ◌++◌, ◌≤◌, ◌<◌, ◌*◌, ◌+◌, ◌^◌, ℕ, codes, OnOk, IfOk};
ghost use Rattle.std.specs.Fmt.{decimal};
ghost use Rattle.drill_lines.specs.Lines.{bytes_in, line_of, totals_of};
ghost use Rattle.drill_lines.specs.Sums.{AreBelow, with_counts};

use crate::range_counts::Counts;
use elf_image::Range;
use itoa::Buffer;
use std::alloc::{AllocError, Global};

/// The sums of counts.
#[derive(Clone, Copy)]
pub(crate) struct Totals {
    pub accepted: u128,
    pub components: u128,
    pub selectors: u128,
    pub ext: u128,
    pub stores: u128,
}

impl Totals {
    // The sums with one summand more.
    fn plus(self, counts: Counts) -> Totals
        requires room { AreBelow (2 ^ 127) self }
        ensures sums { result ≡ with_counts self counts }
        ensures small { (k : ℕ) → AreBelow k self → AreBelow (k + 2 ^ 64) result }
    {
        Totals {
            accepted: self.accepted + u128::from(counts.accepted),
            components: self.components + u128::from(counts.components),
            selectors: self.selectors + u128::from(counts.selectors),
            ext: self.ext + u128::from(counts.ext),
            stores: self.stores + u128::from(counts.stores),
        }
    }
}

/// The sums of the counts of ranges.
pub(crate) fn sums_of(all: &[Counts]) -> Totals
    ensures { result ≡ totals_of all.now }
{
    let mut sums = Totals {
        accepted: 0,
        components: 0,
        selectors: 0,
        ext: 0,
        stores: 0,
    };
    for counts in all {
        sums = sums.plus(*counts);
    }
    sums
}

// The size of a range.
fn size_of_range(r: Range) -> u128
    ensures value { result ≡ r.size }
    ensures small { result < 2 ^ 32 }
{
    u128::from(r.size)
}

/// How many addresses ranges have in all.
pub(crate) fn bytes_of(ranges: &[Range]) -> u128
    ensures { result ≡ bytes_in ranges.now }
{
    let mut bytes: u128 = 0;
    for r in ranges {
        bytes += size_of_range(*r);
    }
    bytes
}

// Adds a name and a number.
fn put(line: &mut Vec<u8>, name: &str, n: u128) -> Result<(), AllocError>
    ensures { OnOk result (line.new.items ≡ line.old.items ++ name.now ++ decimal n) }
{
    line.extend_from_slice(name.as_bytes())?;
    line.extend_from_slice(Buffer::new().format(n).as_bytes())
}

/// The line of so many functions, with its line feed.
pub(crate) fn line(
    alloc: Global,
    functions: u32,
    bytes: u128,
    sums: Totals,
) -> Result<Vec<u8>, AllocError>
    ensures { IfOk result (λ text. text.items ≡ line_of functions bytes sums) }
{
    let mut text = Vec::new(alloc);
    put(&mut text, "functions=", u128::from(functions))?;
    put(&mut text, " bytes=", bytes)?;
    put(&mut text, " accepted=", sums.accepted)?;
    put(&mut text, " components=", sums.components)?;
    put(&mut text, " selectors=", sums.selectors)?;
    put(&mut text, " ext=", sums.ext)?;
    put(&mut text, " stores=", sums.stores)?;
    text.extend_from_slice(b"\n")?;
    Ok(text)
}
