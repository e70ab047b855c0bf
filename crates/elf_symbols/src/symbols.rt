//! The symbols of a symbol section.

ghost use Rattle.std.specs.Prelude.{◌≡◌, ◌+◌, ◌*◌, ◌≤◌, length, drop};
ghost use Rattle.elf_symbols.specs.Symbols.{is_function as is_function_at, symbol_range, symbol_name};

use crate::fields::{half, word};
use elf_image::Range;

/// Whether symbol j is a function that is defined.
pub fn is_function(table: &[u8], j: usize) -> bool
    requires { 16 * j + 16 ≤ length table.now }
    ensures { result ≡ is_function_at table.now j }
{
    table[16 * j + 12] % 16 == 2 && half(table, 16 * j + 14) != 0
}

/// The addresses of symbol j.
pub fn range(table: &[u8], j: usize) -> Range
    requires { 16 * j + 16 ≤ length table.now }
    ensures { result ≡ symbol_range table.now j }
{
    Range::new(word(table, 16 * j + 4), word(table, 16 * j + 8))
}

/// The place in the string table at which symbol j's name begins.
pub fn name_place(table: &[u8], j: usize) -> usize
    requires { 16 * j + 16 ≤ length table.now }
    ensures { result ≡ symbol_name table.now j }
{
    word(table, 16 * j) as usize
}

/// What stands in the string table from the place of symbol j's name on.
pub fn from_name<'a>(table: &[u8], strings: &'a [u8], j: usize) -> &'a [u8]
    requires { 16 * j + 16 ≤ length table.now }
    ensures { result.now ≡ drop (symbol_name table.now j) strings.now }
{
    &strings[name_place(table, j).min(strings.len())..]
}
