//! Whether bytes spell an instruction.

ghost use Rattle.std.specs.Prelude.{◌≡◌, ◌≤◌, ◌↔◌, IsTrue};
ghost use Rattle.x86_inst.specs.Spelling.{Spells};
ghost use Rattle.x86_encode.specs.Bytes.{bytes_of};
ghost use Rattle.x86_encode.specs.Least.{ReadsBack};

use crate::code::Code;
use x86_decode::{Decoded, decode, one_reading};
use x86_inst::Inst;

/// Whether two instructions are the same.
fn same(i: &Inst, j: &Inst) -> bool
    ensures { IsTrue result ↔ (i.now ≡ j.now) }
{
    *i == *j
}

/// Whether the bytes of a code spell the instruction.
pub fn spells(code: &Code, i: &Inst) -> bool
    requires { code.now.len ≤ 15 }
    ensures spelling { IsTrue result ↔ Spells (bytes_of code.now) i.now }
    ensures read_back { IsTrue result → ReadsBack i.now code.now }
{
    // that a decoder can answer in one way alone
    one_reading();
    let bytes = code.as_slice();
    match decode(bytes) {
        Decoded::Inst(j, len) => usize::from(len) == bytes.len() && same(&j, i),
        Decoded::Cut => false,
        Decoded::None => false,
    }
}
