//! The function of a name.

ghost use Rattle.std.specs.Prelude.{◌≡◌, ◌+◌, ◌*◌, ◌≤◌, ◌<◌, ◌||◌, ◌==◌, length, None, true};
ghost use Rattle.elf_symbols.specs.Sections.{section_count, broken_sections as broken_sections_of};
ghost use Rattle.elf_symbols.specs.Functions.{function_at, functions_in, section_functions, type_functions, range_named, function_named as function_named_of};

use crate::names::begin_with_name;
use crate::sections::{broken_sections, count, section, section_link, section_type};
use crate::symbols::{from_name, is_function, range};
use elf_image::{ElfFault, Range};

/// Why no function has a name.
#[derive(Clone, Copy, Debug, PartialEq, Eq)]
pub enum FindFault {
    Elf(ElfFault),
    NoFunction,
}

// The range of symbol j, if it is a defined function of the name.
fn named_symbol(table: &[u8], strings: &[u8], j: usize, name: &[u8]) -> Option<Range>
    requires { 16 * j + 16 ≤ length table.now }
    ensures { result ≡ range_named (function_at table.now strings.now j) name.now }
{
    if is_function(table, j) && begin_with_name(from_name(table, strings, j), name) {
        Some(range(table, j))
    } else {
        None
    }
}

fn named_in_table(table: &[u8], strings: &[u8], name: &[u8]) -> Option<Range>
    ensures { result ≡ range_named (functions_in table.now strings.now) name.now }
{
    for j in 0..table.len() / 16 {
        if let Some(range) = named_symbol(table, strings, j, name) {
            return Some(range);
        }
    }
    None
}

fn named_in_section(bytes: &[u8], kind: u32, k: usize, name: &[u8]) -> Option<Range>
    requires sections { broken_sections_of bytes.now ≡ None }
    requires kinds { (kind == 2 || kind == 11) ≡ true }
    requires within { k < section_count bytes.now }
    ensures { result ≡ range_named (section_functions bytes.now kind k) name.now }
{
    if section_type(bytes, k) == kind {
        named_in_table(
            section(bytes, k),
            section(bytes, section_link(bytes, k)),
            name,
        )
    } else {
        None
    }
}

fn named_in_sections(bytes: &[u8], kind: u32, name: &[u8]) -> Option<Range>
    requires sections { broken_sections_of bytes.now ≡ None }
    requires kinds { (kind == 2 || kind == 11) ≡ true }
    ensures { result ≡ range_named (type_functions bytes.now kind) name.now }
{
    for k in 0..count(bytes) {
        if let Some(range) = named_in_section(bytes, kind, k, name) {
            return Some(range);
        }
    }
    None
}

/// The range of the first function that is defined and has a name, among the symbols of all SHT_SYMTAB sections in
/// the order of the table, and then of all SHT_DYNSYM sections. Given is a file that has an image; a file without an
/// ELF header is answered as `Image::read` does.
pub fn function_named(bytes: &[u8], name: &[u8]) -> Result<Range, FindFault>
    ensures { result ≡ function_named_of bytes.now name.now }
{
    if let Some(fault) = broken_sections(bytes) {
        return Err(FindFault::Elf(fault));
    }
    if let Some(range) = named_in_sections(bytes, 2, name) {
        return Ok(range);
    }
    named_in_sections(bytes, 11, name).ok_or(FindFault::NoFunction)
}
