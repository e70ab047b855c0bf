//! The fields of a file's headers (System V gABI, 'ELF Header' and 'Program Header').

ghost use Rattle.std.specs.Prelude.{◌≡◌, ◌+◌, ◌*◌, ◌≤◌, ◌<◌, length};
ghost use Rattle.elf_image.specs.Header.{half_at, word_at, header_place, is_load as is_load_at};

use byteorder::{ByteOrder, LittleEndian};

/// The number of two bytes at a place.
#[tactic(auto, using(crate::proofs::Numbers::number_is))]
pub fn half(bytes: &[u8], place: usize) -> u32
    requires { place + 2 ≤ length bytes.now }
    ensures value { result ≡ half_at bytes.now place }
    ensures small { result < 65536 }
{
    u32::from(LittleEndian::read_u16(&bytes[place..]))
}

/// The number of four bytes at a place.
#[tactic(auto, using(crate::proofs::Numbers::number_is))]
pub fn word(bytes: &[u8], place: usize) -> u32
    requires { place + 4 ≤ length bytes.now }
    ensures { result ≡ word_at bytes.now place }
{
    LittleEndian::read_u32(&bytes[place..])
}

/// The place of program header k.
pub fn header(bytes: &[u8], k: usize) -> usize
    requires file { 52 ≤ length bytes.now }
    requires table { header_place bytes.now k + 32 ≤ length bytes.now }
    ensures { result ≡ header_place bytes.now k }
{
    word(bytes, 28) as usize + 32 * k
}

/// Whether program header k is of a segment that is loaded.
pub fn is_load(bytes: &[u8], k: usize) -> bool
    requires file { 52 ≤ length bytes.now }
    requires table { header_place bytes.now k + 32 ≤ length bytes.now }
    ensures { result ≡ is_load_at bytes.now k }
{
    word(bytes, header(bytes, k)) == 1
}
