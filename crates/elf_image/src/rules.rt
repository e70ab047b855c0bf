//! What is accepted in a file.

ghost use Rattle.std.specs.Prelude.{◌≡◌, ◌+◌, ◌*◌, ◌≤◌, ◌<◌, length, IfSome, is_some};
ghost use Rattle.elf_image.specs.Header.{header_place, table_offset, entry_count};
ghost use Rattle.elf_image.specs.First.{first_below};
ghost use Rattle.elf_image.specs.Rules.{fault as fault_of, first_broken as first_broken_in, headers_fault as fault_of_headers, is_outside as is_outside_at, is_overlapping as is_overlapping_at, meets as meets_at};

use crate::fields::{half, header, is_load, word};
use crate::image::ElfFault;

fn fault(kind: u8, at: u64) -> ElfFault
    ensures { result ≡ fault_of kind at }
{
    ElfFault { kind, at }
}

fn is_outside(bytes: &[u8], k: usize) -> bool
    requires file { 52 ≤ length bytes.now }
    requires table { header_place bytes.now k + 32 ≤ length bytes.now }
    ensures { result ≡ is_outside_at bytes.now k }
{
    let at = header(bytes, k);
    let offset = u64::from(word(bytes, at + 4));
    let address = u64::from(word(bytes, at + 8));
    let file_size = u64::from(word(bytes, at + 16));
    let size = u64::from(word(bytes, at + 20));
    is_load(bytes, k)
        && ((bytes.len() as u64) < offset + file_size
            || size < file_size
            || 0x1_0000_0000 < address + size)
}

fn meets(bytes: &[u8], k: usize, j: usize) -> bool
    requires file { 52 ≤ length bytes.now }
    requires first { header_place bytes.now k + 32 ≤ length bytes.now }
    requires second { header_place bytes.now j + 32 ≤ length bytes.now }
    ensures { result ≡ meets_at bytes.now k j }
{
    let at = header(bytes, k);
    let other = header(bytes, j);
    let address = u64::from(word(bytes, at + 8));
    let end = address + u64::from(word(bytes, at + 20));
    let other_address = u64::from(word(bytes, other + 8));
    let other_end = other_address + u64::from(word(bytes, other + 20));
    is_load(bytes, j) && other_address.max(address) < other_end.min(end)
}

fn meets_earlier(bytes: &[u8], k: usize) -> bool
    requires file { 52 ≤ length bytes.now }
    requires table { header_place bytes.now k + 32 ≤ length bytes.now }
    ensures { result ≡ is_some (first_below k (meets_at bytes.now k)) }
{
    for j in 0..k {
        if meets(bytes, k, j) {
            return true;
        }
    }
    false
}

fn is_overlapping(bytes: &[u8], k: usize) -> bool
    requires file { 52 ≤ length bytes.now }
    requires table { header_place bytes.now k + 32 ≤ length bytes.now }
    ensures { result ≡ is_overlapping_at bytes.now k }
{
    is_load(bytes, k) && meets_earlier(bytes, k)
}

fn first_outside(bytes: &[u8], count: usize) -> Option<usize>
    requires file { 52 ≤ length bytes.now }
    requires table { table_offset bytes.now + 32 * count ≤ length bytes.now }
    ensures value { result ≡ first_below count (is_outside_at bytes.now) }
    ensures within { IfSome result (λ k. k < count) }
{
    for k in 0..count {
        if is_outside(bytes, k) {
            return Some(k);
        }
    }
    None
}

fn first_overlapping(bytes: &[u8], count: usize) -> Option<usize>
    requires file { 52 ≤ length bytes.now }
    requires table { table_offset bytes.now + 32 * count ≤ length bytes.now }
    ensures value { result ≡ first_below count (is_overlapping_at bytes.now) }
    ensures within { IfSome result (λ k. k < count) }
{
    for k in 0..count {
        if is_overlapping(bytes, k) {
            return Some(k);
        }
    }
    None
}

fn headers_fault(bytes: &[u8]) -> Option<ElfFault>
    requires file { 52 ≤ length bytes.now }
    requires table { table_offset bytes.now + 32 * entry_count bytes.now ≤ length bytes.now }
    ensures { result ≡ fault_of_headers bytes.now }
{
    let table = u64::from(word(bytes, 28));
    let count = half(bytes, 44) as usize;
    if let Some(k) = first_outside(bytes, count) {
        return Some(fault(10, table + 32 * k as u64));
    }
    if let Some(k) = first_overlapping(bytes, count) {
        return Some(fault(11, table + 32 * k as u64));
    }
    None
}

/// The first kind that the file breaks, and where.
pub fn first_broken(bytes: &[u8]) -> Option<ElfFault>
    ensures { result ≡ first_broken_in bytes.now }
{
    if bytes.len() < 52 {
        return Some(fault(1, bytes.len() as u64));
    }
    if bytes[0] != 0x7f || bytes[1] != 0x45 || bytes[2] != 0x4c || bytes[3] != 0x46 {
        return Some(fault(2, 0));
    }
    if bytes[4] != 1 {
        return Some(fault(3, 4));
    }
    if bytes[5] != 1 {
        return Some(fault(4, 5));
    }
    if bytes[6] != 1 {
        return Some(fault(5, 6));
    }
    let file_type = half(bytes, 16);
    if file_type != 2 && file_type != 3 {
        return Some(fault(6, 16));
    }
    if half(bytes, 18) != 3 {
        return Some(fault(7, 18));
    }
    let count = half(bytes, 44);
    if count != 0 && half(bytes, 42) != 32 {
        return Some(fault(8, 42));
    }
    if count == 65535 {
        return Some(fault(9, 44));
    }
    if (bytes.len() as u64) < u64::from(word(bytes, 28)) + 32 * u64::from(count) {
        return Some(fault(9, 28));
    }
    headers_fault(bytes)
}
