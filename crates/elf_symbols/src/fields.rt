//! The numbers at places of a file or of a part of it.

ghost use Rattle.std.specs.Prelude.{◌≡◌, ◌+◌, ◌≤◌, ◌<◌, length};
ghost use Rattle.elf_image.specs.Header.{half_at, word_at};

use byteorder::{ByteOrder, LittleEndian};

/// The number of two bytes at a place.
#[tactic(auto, using(elf_image::proofs::Numbers::number_is))]
pub fn half(bytes: &[u8], place: usize) -> u32
    requires { place + 2 ≤ length bytes.now }
    ensures value { result ≡ half_at bytes.now place }
    ensures small { result < 65536 }
{
    u32::from(LittleEndian::read_u16(&bytes[place..]))
}

/// The number of four bytes at a place.
#[tactic(auto, using(elf_image::proofs::Numbers::number_is))]
pub fn word(bytes: &[u8], place: usize) -> u32
    requires { place + 4 ≤ length bytes.now }
    ensures { result ≡ word_at bytes.now place }
{
    LittleEndian::read_u32(&bytes[place..])
}
