//! The shortest spelling of an instruction, over all rows.

ghost use Rattle.std.specs.Prelude.{◌≡◌, ◌≤◌, IfSome, IsTrue, false};
ghost use Rattle.x86_inst.specs.Spelling.{Spells};
ghost use Rattle.x86_encode.specs.Bytes.{bytes_of};
ghost use Rattle.x86_encode.specs.Least.{NoGreater, AtMost, Encodes, ReadsBack, SpellsIt, Reaches, IsLeastOf};

use crate::candidate::candidate;
use crate::code::Code;
use crate::parts::Parts;
use crate::shown::shown;
use crate::trial::spells;
use x86_decode::{Row, all_rows};
use x86_inst::Inst;

/// Whether x is no greater than y, byte by byte.
fn no_greater(x: &[u8], y: &[u8]) -> bool
    ensures at_most { IsTrue result → NoGreater x.now y.now }
    ensures greater { result ≡ false → NoGreater y.now x.now }
{
    match (x, y) {
        ([], _) => true,
        (_, []) => false,
        ([a, x @ ..], [b, y @ ..]) => a < b || (a == b && no_greater(x, y)),
    }
}

/// Whether a code is the first of two: the shorter, or the lesser of two of one length.
fn comes_first(a: &Code, b: &Code) -> bool
    requires a { a.now.len ≤ 15 }
    requires b { b.now.len ≤ 15 }
    ensures first { IsTrue result → AtMost (bytes_of a.now) (bytes_of b.now) }
    ensures second { result ≡ false → AtMost (bytes_of b.now) (bytes_of a.now) }
{
    a.len < b.len || (a.len == b.len && no_greater(a.as_slice(), b.as_slice()))
}

/// The first of two codes, where there are two.
fn first_of(best: Option<Code>, other: Option<Code>) -> Option<Code>
    requires best { IfSome best (λ c. c.len ≤ 15) }
    requires other { IfSome other (λ c. c.len ≤ 15) }
    ensures { IsLeastOf best other result }
{
    match (best, other) {
        (None, other) => other,
        (best, None) => best,
        (Some(a), Some(b)) => if comes_first(&a, &b) {
            Some(a)
        } else {
            Some(b)
        },
    }
}

/// The least bytes of a row, where they spell the instruction.
fn spelling_by(row: &Row, i: &Inst) -> Option<Code>
    ensures sound { IfSome result (SpellsIt i.now) }
    ensures complete { Reaches row.now i.now result }
{
    let code = candidate(row, &shown(row.form, &Parts::of(i)))?;
    if spells(&code, i) { Some(code) } else { None }
}

/// The shortest spelling of an instruction, and among the shortest the least byte by byte. The
/// registers are 0 to 7, the conditions 0 to 15, the scales 1, 2, 4 and 8: nothing spells others.
pub fn encode(i: &Inst) -> Option<Code>
    ensures least { Encodes i.now result }
    ensures read_back { IfSome result (ReadsBack i.now) }
{
    let mut best = None;
    for row in all_rows() {
        best = first_of(best, spelling_by(row, i));
    }
    best
}
