//! The sections that hold symbols, and what is not accepted in them.

ghost use Rattle.std.specs.Prelude.{◌≡◌, ◌+◌, ◌*◌, ◌^◌, ◌≤◌, ◌<◌, length, false, IfSome};
ghost use Rattle.elf_image.specs.First.{first_below};
ghost use Rattle.elf_image.specs.Rules.{fault as fault_of};
ghost use Rattle.elf_symbols.specs.Sections.{section_table, section_count, section_place, section_type as section_type_of, section_link as section_link_of, section_offset as section_offset_of, section_size as section_size_of, section_bytes, holds_symbols as holds_symbols_at, passes_end as passes_end_of, is_section_outside, broken_sections as broken_sections_of};

use crate::fields::{half, word};
use elf_image::ElfFault;

fn fault(kind: u8, at: u64) -> ElfFault
    ensures { result ≡ fault_of kind at }
{
    ElfFault { kind, at }
}

/// How many section headers there are.
pub fn count(bytes: &[u8]) -> usize
    requires { 52 ≤ length bytes.now }
    ensures value { result ≡ section_count bytes.now }
    ensures small { result < 65536 }
{
    half(bytes, 48) as usize
}

fn header(bytes: &[u8], k: usize) -> usize
    requires file { 52 ≤ length bytes.now }
    requires table { section_place bytes.now k + 40 ≤ length bytes.now }
    ensures { result ≡ section_place bytes.now k }
{
    word(bytes, 32) as usize + 40 * k
}

/// The type of section k.
pub fn section_type(bytes: &[u8], k: usize) -> u32
    requires file { 52 ≤ length bytes.now }
    requires table { section_place bytes.now k + 40 ≤ length bytes.now }
    ensures { result ≡ section_type_of bytes.now k }
{
    word(bytes, header(bytes, k) + 4)
}

/// The number of the section that section k is linked to.
pub fn section_link(bytes: &[u8], k: usize) -> usize
    requires file { 52 ≤ length bytes.now }
    requires table { section_place bytes.now k + 40 ≤ length bytes.now }
    ensures { result ≡ section_link_of bytes.now k }
{
    word(bytes, header(bytes, k) + 24) as usize
}

/// The file place of the bytes of section k.
pub fn section_offset(bytes: &[u8], k: usize) -> usize
    requires file { 52 ≤ length bytes.now }
    requires table { section_place bytes.now k + 40 ≤ length bytes.now }
    ensures value { result ≡ section_offset_of bytes.now k }
    ensures small { result < 2 ^ 32 }
{
    word(bytes, header(bytes, k) + 16) as usize
}

/// How many bytes section k has.
pub fn section_size(bytes: &[u8], k: usize) -> usize
    requires file { 52 ≤ length bytes.now }
    requires table { section_place bytes.now k + 40 ≤ length bytes.now }
    ensures value { result ≡ section_size_of bytes.now k }
    ensures small { result < 2 ^ 32 }
{
    word(bytes, header(bytes, k) + 20) as usize
}

/// The bytes of section k.
pub fn section(bytes: &[u8], k: usize) -> &[u8]
    requires file { 52 ≤ length bytes.now }
    requires table { section_place bytes.now k + 40 ≤ length bytes.now }
    requires inside { passes_end_of bytes.now k ≡ false }
    ensures { result.now ≡ section_bytes bytes.now k }
{
    let offset = section_offset(bytes, k);
    &bytes[offset..offset + section_size(bytes, k)]
}

fn passes_end(bytes: &[u8], k: usize) -> bool
    requires file { 52 ≤ length bytes.now }
    requires table { section_place bytes.now k + 40 ≤ length bytes.now }
    ensures { result ≡ passes_end_of bytes.now k }
{
    bytes.len() < section_offset(bytes, k) + section_size(bytes, k)
}

fn holds_symbols(bytes: &[u8], k: usize) -> bool
    requires file { 52 ≤ length bytes.now }
    requires table { section_place bytes.now k + 40 ≤ length bytes.now }
    ensures { result ≡ holds_symbols_at bytes.now k }
{
    let kind = section_type(bytes, k);
    kind == 2 || kind == 11
}

fn is_outside(bytes: &[u8], k: usize) -> bool
    requires file { 52 ≤ length bytes.now }
    requires table { section_table bytes.now + 40 * section_count bytes.now ≤ length bytes.now }
    requires within { k < section_count bytes.now }
    ensures { result ≡ is_section_outside bytes.now k }
{
    if !holds_symbols(bytes, k) {
        return false;
    }
    let link = section_link(bytes, k);
    passes_end(bytes, k) || count(bytes) <= link || passes_end(bytes, link)
}

fn first_outside(bytes: &[u8]) -> Option<usize>
    requires file { 52 ≤ length bytes.now }
    requires table { section_table bytes.now + 40 * section_count bytes.now ≤ length bytes.now }
    ensures value { result ≡ first_below (section_count bytes.now) (is_section_outside bytes.now) }
    ensures within { IfSome result (λ k. k < 65536) }
{
    for k in 0..count(bytes) {
        if is_outside(bytes, k) {
            return Some(k);
        }
    }
    None
}

/// How the sections of a file are broken, and where.
pub fn broken_sections(bytes: &[u8]) -> Option<ElfFault>
    ensures { result ≡ broken_sections_of bytes.now }
{
    if bytes.len() < 52 {
        return Some(fault(1, bytes.len() as u64));
    }
    let count = half(bytes, 48);
    if count != 0 && half(bytes, 46) != 40 {
        return Some(fault(12, 46));
    }
    let table = u64::from(word(bytes, 32));
    if (bytes.len() as u64) < table + 40 * u64::from(count) {
        return Some(fault(12, 32));
    }
    first_outside(bytes).map(|k| fault(12, table + 40 * k as u64))
}
