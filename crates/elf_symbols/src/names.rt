//! Names in a string table, each ended by a zero byte.

ghost use Rattle.std.specs.Prelude.{◌≡◌, IfOk};
ghost use Rattle.elf_symbols.specs.Symbols.{ended, is_name};

use elf_image::Bytes;
use std::alloc::{AllocError, Global};

/// Whether bytes begin with a name and the zero byte that ends it. No more of them are read than the name has.
pub fn begin_with_name(bytes: &[u8], name: &[u8]) -> bool
    ensures { result ≡ is_name (ended bytes.now) name.now }
{
    if bytes.len() <= name.len() {
        return false;
    }
    for i in 0..name.len() {
        if bytes[i] == 0 || bytes[i] != name[i] {
            return false;
        }
    }
    bytes[name.len()] == 0
}

/// The bytes before the first zero byte, if there is one.
pub fn name(alloc: Global, bytes: &[u8]) -> Result<Option<Bytes>, AllocError>
    ensures { IfOk result (λ o. o ≡ ended bytes.now) }
{
    for i in 0..bytes.len() {
        if bytes[i] == 0 {
            return Ok(Some(Bytes::new(bytes[..i].to_vec(alloc)?)));
        }
    }
    Ok(None)
}
