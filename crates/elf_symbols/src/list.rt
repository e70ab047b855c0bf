//! All functions of a file that have a name.

ghost use Rattle.std.specs.Prelude.{◌≡◌, ◌+◌, ◌*◌, ◌/◌, ◌≤◌, ◌<◌, ◌++◌, ◌||◌, ◌==◌, length, drop, None, true, Ok, OnOk, IfOk, MatchResult};
ghost use Rattle.elf_symbols.specs.Sections.{section_count, broken_sections as broken_sections_of};
ghost use Rattle.elf_symbols.specs.Symbols.{ended};
ghost use Rattle.elf_symbols.specs.Zeros.{zeros_below};
ghost use Rattle.elf_symbols.specs.Functions.{function_at, functions_in, section_functions, type_functions, functions_of, functions_unless, ListFails};

use crate::named::{self, Named};
use crate::names::name;
use crate::sections::{broken_sections, count, section, section_link, section_type};
use crate::symbols::{from_name, is_function, name_place, range};
use crate::zeros::{end_of_names, zeros};
use elf_image::ElfFault;
use std::alloc::{AllocError, Global};

/// Why there is no list of functions.
#[derive(Clone, Copy, Debug, PartialEq, Eq)]
pub enum ListFault {
    Elf(ElfFault),
    Memory,
}

// Adds symbol j, if it is a defined function that has a name. All names begin before a place of the string table.
fn push_symbol(
    alloc: Global,
    table: &[u8],
    strings: &[u8],
    names: usize,
    j: usize,
    list: &mut Vec<Named>,
) -> Result<(), AllocError>
    requires inside { 16 * j + 16 ≤ length table.now }
    requires names { ended (drop names strings.now) ≡ None }
    ensures { OnOk result (list.new.items ≡ list.old.items ++ function_at table.now strings.now j) }
{
    if is_function(table, j) && name_place(table, j) < names {
        if let Some(name) = name(alloc, from_name(table, strings, j))? {
            list.push(Named {
                name,
                range: range(table, j),
            })?;
        }
    }
    Ok(())
}

fn push_table(
    alloc: Global,
    table: &[u8],
    strings: &[u8],
    names: usize,
    list: &mut Vec<Named>,
) -> Result<(), AllocError>
    requires names { ended (drop names strings.now) ≡ None }
    ensures { OnOk result (list.new.items ≡ list.old.items ++ functions_in table.now strings.now) }
{
    for j in 0..table.len() / 16 {
        push_symbol(alloc, table, strings, names, j, list)?;
    }
    Ok(())
}

fn push_section(
    alloc: Global,
    bytes: &[u8],
    zeros: &[usize],
    kind: u32,
    k: usize,
    list: &mut Vec<Named>,
) -> Result<(), AllocError>
    requires sections { broken_sections_of bytes.now ≡ None }
    requires zeros { zeros.now ≡ zeros_below bytes.now (length bytes.now / 256 + 1) }
    requires kinds { (kind == 2 || kind == 11) ≡ true }
    requires within { k < section_count bytes.now }
    ensures { OnOk result (list.new.items ≡ list.old.items ++ section_functions bytes.now kind k) }
{
    if section_type(bytes, k) == kind {
        let link = section_link(bytes, k);
        let names = end_of_names(zeros, bytes, link);
        push_table(alloc, section(bytes, k), section(bytes, link), names, list)?;
    }
    Ok(())
}

fn push_sections(
    alloc: Global,
    bytes: &[u8],
    zeros: &[usize],
    kind: u32,
    list: &mut Vec<Named>,
) -> Result<(), AllocError>
    requires sections { broken_sections_of bytes.now ≡ None }
    requires zeros { zeros.now ≡ zeros_below bytes.now (length bytes.now / 256 + 1) }
    requires kinds { (kind == 2 || kind == 11) ≡ true }
    ensures { OnOk result (list.new.items ≡ list.old.items ++ type_functions bytes.now kind) }
{
    for k in 0..count(bytes) {
        push_section(alloc, bytes, zeros, kind, k, list)?;
    }
    Ok(())
}

fn all_functions(alloc: Global, bytes: &[u8]) -> Result<Vec<Named>, AllocError>
    requires sections { broken_sections_of bytes.now ≡ None }
    ensures { IfOk result (λ v. v.items ≡ functions_of bytes.now) }
{
    let zeros = zeros(alloc, bytes)?;
    let mut list = Vec::new(alloc);
    push_sections(alloc, bytes, &zeros, 2, &mut list)?;
    push_sections(alloc, bytes, &zeros, 11, &mut list)?;
    Ok(list)
}

/// Every function that is defined and has a name, in the order in which `function_named` looks for one.
pub fn functions(alloc: Global, bytes: &[u8]) -> Result<named::Functions, ListFault>
    ensures { MatchResult result (λ f. functions_unless bytes.now ≡ Ok f.list.items) (ListFails (functions_unless bytes.now)) }
{
    if let Some(fault) = broken_sections(bytes) {
        return Err(ListFault::Elf(fault));
    }
    match all_functions(alloc, bytes) {
        Ok(list) => Ok(named::Functions { list }),
        Err(_) => Err(ListFault::Memory),
    }
}
