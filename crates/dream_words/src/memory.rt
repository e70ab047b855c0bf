//! Memories.

ghost use Rattle.std.specs.Prelude.{◌≡◌, ◌+◌, ◌^◌, ◌≤◌, length, IfOk, OnOk, OnErr};
ghost use Rattle.dream_words.specs.Memory.{byte_at, no_bytes, load, store, place, bytes_of, differences};

use crate::machine::Width;
use crate::tree;
use std::alloc::{AllocError, Global};
use std::collections::BTreeMap;
use std::marker::Model;

/// A memory of 2^32 bytes, seen as a finite map from addresses to the bytes that are not 0.
///
/// The tree may hold bytes that are 0; the view leaves them out.
#[derive(Drop)]
pub struct Memory {
    bytes: BTreeMap<u32, u8>,
}

impl Model for Memory {
    ghost use Rattle.std.specs.Prelude.{ℕ};
    ghost use Rattle.std.specs.Ordering.{nat_cmp};
    ghost use Rattle.std.specs.Coded.{coded_ℕ};
    ghost use Rattle.std.specs.FinMap as map;
    ghost use Rattle.dream_words.specs.Memory.{seen};

    ghost Value = { map.FinMap nat_cmp ℕ };

    ghost coded = { map.code coded_ℕ coded_ℕ };

    ghost view = { λ m. seen m.bytes.entries };
}

impl Memory {
    /// The memory whose bytes are all 0.
    pub fn new(alloc: Global) -> Memory
        ensures { result ≡ no_bytes }
    {
        Memory {
            bytes: BTreeMap::new(alloc),
        }
    }

    /// The byte at an address.
    pub fn byte(&self, a: u32) -> u8
        ensures { result ≡ byte_at self.now a }
    {
        tree::byte(&self.bytes, a)
    }

    /// The little-endian word at an address, from 1, 2 or 4 bytes; their addresses wrap around.
    pub fn load(&self, a: u32, w: Width) -> u32
        ensures { result ≡ load self.now a (bytes_of w) }
    {
        match w {
            Width::B => u32::from(self.byte(a)),
            Width::H => u32::from(u16::from_le_bytes([self.byte(a), self.byte(a.wrapping_add(1))])),
            Width::W => u32::from_le_bytes([
                self.byte(a),
                self.byte(a.wrapping_add(1)),
                self.byte(a.wrapping_add(2)),
                self.byte(a.wrapping_add(3)),
            ]),
        }
    }

    /// Puts the low 1, 2 or 4 bytes of a word at an address, little-endian; their addresses wrap
    /// around.
    pub fn store(&mut self, a: u32, w: Width, v: u32) -> Result<(), AllocError>
        ensures ok { OnOk result (self.new ≡ store self.old a (bytes_of w) v) }
        ensures err { OnErr result (self.new ≡ self.old) }
    {
        let bytes = v.to_le_bytes();
        tree::put_all(&mut self.bytes, a, &bytes[..w.bytes()])
    }

    /// Puts bytes at an address and the ones after it.
    pub fn place(&mut self, a: u32, bytes: &[u8]) -> Result<(), AllocError>
        requires { a + length bytes.now ≤ 2 ^ 32 }
        ensures ok { OnOk result (self.new ≡ place self.old a bytes.now) }
        ensures err { OnErr result (self.new ≡ self.old) }
    {
        tree::put_all(&mut self.bytes, a, bytes)
    }

    /// A memory with the same bytes.
    pub fn copy(&self) -> Result<Memory, AllocError>
        ensures { IfOk result (λ m. m ≡ self.now) }
    {
        Ok(Memory {
            bytes: self.bytes.clone()?,
        })
    }
    /// At how many addresses two memories have different bytes.
    pub fn differs(&self, other: &Memory) -> u64
        ensures { result ≡ differences self.now other.now }
    {
        tree::differences(&self.bytes, &other.bytes)
    }
}
