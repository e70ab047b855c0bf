//! A window, as plain data, and the entries of its table.

ghost use Rattle.std.specs.Prelude.{◌≡◌, ◌*◌, ◌≤◌};
ghost use Rattle.jump_tables.specs.Found.{all_frozen};
ghost use Rattle.jump_tables.specs.Window.{frozen_at, frozen_word, target_of};

use elf_image::Image;

/// A comparison of an index with a number, a branch by it, and a jump through a table by the index.
#[derive(Clone, Copy, Debug, PartialEq, Eq)]
pub struct TableWindow {
    /// Where the run goes on for an index that is too great.
    pub default: u32,
    /// The address of the table.
    pub table: u32,
    /// How many entries the table has, 1 to 1,024.
    pub count: u32,
    /// The address of the jump.
    pub jump: u32,
    /// The address at which the path to the jump begins.
    pub path: u32,
}

impl TableWindow {
    /// The target of entry k, as the table holds it.
    pub fn target(&self, m: &Image, k: u32) -> u32
        ensures { result ≡ target_of m.now self.now k }
    {
        word_at(m, self.table.wrapping_add(k.wrapping_mul(4)))
    }
}

// The frozen byte at an address, or 0.
fn byte_at(m: &Image, at: u32) -> u8
    ensures { result ≡ frozen_at m.now at }
{
    m.frozen(at).unwrap_or(0)
}

// The four frozen bytes from an address on, as a word.
fn word_at(m: &Image, at: u32) -> u32
    ensures { result ≡ frozen_word m.now at }
{
    u32::from_le_bytes([
        byte_at(m, at),
        byte_at(m, at.wrapping_add(1)),
        byte_at(m, at.wrapping_add(2)),
        byte_at(m, at.wrapping_add(3)),
    ])
}

/// Whether each byte of so many entries from an address on is frozen.
pub(crate) fn is_frozen(m: &Image, table: u32, count: u32) -> bool
    requires { count ≤ 1024 }
    ensures { result ≡ all_frozen m.now table (4 * count) }
{
    for k in 0..4 * count {
        if m.frozen(table.wrapping_add(k)).is_none() {
            return false;
        }
    }
    true
}
