//! The value of a Word where names stand for given words.

ghost use Rattle.std.specs.Prelude.{◌≡◌, slice_index};
ghost use Rattle.c_syntax.specs.Value.{word_of};
ghost use Rattle.micro_ir.specs.Env.{names_of};

use c_syntax::CExpr;
use c_value::{Words, value};
use dream_words::{Name, Regs};
use sqlite_items::Items;

/// The word of each name. A temporary past the end of its list is 0, and so is every `b` and every
/// `s` variable.
#[derive(Drop)]
pub struct Env {
    pub regs: Regs,
    /// The carry, parity, zero, sign and overflow flag.
    pub flags: [u32; 5],
    /// The base of the segment FS.
    pub fs: u32,
    /// The base of the segment GS.
    pub gs: u32,
    pub temps: Items<u32>,
}

impl Words for Env {
    ghost words = { names_of };

    fn word(&self, n: Name) -> u32 {
        match n {
            Name::Reg(n) => self.regs.get(n),
            Name::Flag(n) => word_at(&self.flags, n as usize),
            Name::Fs => self.fs,
            Name::Gs => self.gs,
            Name::T(n) => word_at(self.temps.as_slice(), n as usize),
            Name::B(_) | Name::S(_) => 0,
        }
    }
}

/// The word at a place, or 0 past the end.
fn word_at(words: &[u32], n: usize) -> u32
    ensures { result ≡ slice_index words.now n }
{
    words.get(n).copied().unwrap_or(0)
}

/// The value of a Word (C99 6.5). None exactly where a shift by 32 or more is evaluated.
pub fn eval(e: &CExpr, env: &Env) -> Option<u32>
    ensures { result ≡ word_of e.now (names_of env.now) }
{
    value(e, env)
}
