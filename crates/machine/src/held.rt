//! Which bytes must stay as they are: the frozen ones of the image, and the four of the return slot.

ghost use Rattle.std.specs.Prelude.{◌≡◌, ◌+◌, ◌%◌, ◌^◌, ◌≤◌, ◌==◌, ◌||◌, length};
ghost use Rattle.elf_image.specs.Layout.{AreLaidOut};
ghost use Rattle.dream_words.specs.Memory.{byte_at, bytes_of};
ghost use Rattle.x86_model.specs.Leads.{stored};
ghost use Rattle.machine.specs.Code.{all_below, keeps_frozen as keeps_frozen_of, keeps_slot as keeps_slot_of, is_broken as is_broken_of};
ghost use Rattle.machine.specs.Held.{is_held as is_held_in, changes as changes_in, store_changes};

use dream_words::{Memory, Width};
use elf_image::{Image, Segment};
use x86_model::Stored;

// ---- two memories

/// The memories have the same byte at an address.
fn same(a: u32, old: &Memory, new: &Memory) -> bool
    ensures { result ≡ (byte_at old.now a == byte_at new.now a) }
{
    old.byte(a) == new.byte(a)
}

fn keeps_bytes(at: u32, count: usize, old: &Memory, new: &Memory) -> bool
    requires { at + count ≤ 2 ^ 32 }
    ensures { result ≡ all_below count (λ k. byte_at old.now (at + k) == byte_at new.now (at + k)) }
{
    for k in 0..count {
        if !same(at + k as u32, old, new) {
            return false;
        }
    }
    true
}

fn keeps_segment(s: &Segment, old: &Memory, new: &Memory) -> bool
    requires { s.now.at + length s.now.bytes ≤ 2 ^ 32 }
    ensures { result ≡ (s.now.writable
        || all_below (length s.now.bytes) (λ k. byte_at old.now (s.now.at + k) == byte_at new.now (s.now.at + k))) }
{
    s.writable || keeps_bytes(s.at, s.bytes.as_slice().len(), old, new)
}

fn keeps_frozen(segments: &[Segment], old: &Memory, new: &Memory) -> bool
    requires { AreLaidOut segments.now }
    ensures { result ≡ keeps_frozen_of segments.now old.now new.now }
{
    for s in segments {
        if !keeps_segment(s, old, new) {
            return false;
        }
    }
    true
}

fn keeps_slot(slot: u32, old: &Memory, new: &Memory) -> bool
    ensures { result ≡ keeps_slot_of slot old.now new.now }
{
    same(slot, old, new)
        && same(slot.wrapping_add(1), old, new)
        && same(slot.wrapping_add(2), old, new)
        && same(slot.wrapping_add(3), old, new)
}

/// A byte that must stay is another in the new memory.
pub(crate) fn is_broken(image: &Image, slot: u32, old: &Memory, new: &Memory) -> bool
    ensures { result ≡ is_broken_of image.now slot old.now new.now }
{
    !(keeps_frozen(image.segments(), old, new) && keeps_slot(slot, old, new))
}

// ---- a store

fn is_held(image: &Image, slot: u32, a: u32) -> bool
    ensures { result ≡ is_held_in image.now slot a }
{
    image.frozen(a).is_some() || a.wrapping_sub(slot) < 4
}

/// A byte that must stay would be another.
fn changes(image: &Image, slot: u32, mem: &Memory, a: u32, v: u8) -> bool
    ensures { result ≡ changes_in image.now slot mem.now a v }
{
    is_held(image, slot, a) && mem.byte(a) != v
}

/// One of two neighbours would be so.
fn pair_changes(image: &Image, slot: u32, mem: &Memory, at: u32, a: u8, b: u8) -> bool
    ensures { result ≡ (changes_in image.now slot mem.now at a
        || changes_in image.now slot mem.now ((at + 1) % 2 ^ 32) b) }
{
    changes(image, slot, mem, at, a) || changes(image, slot, mem, at.wrapping_add(1), b)
}

/// One of the low bytes of a word would be so at its address.
fn word_changes(image: &Image, slot: u32, mem: &Memory, at: u32, width: Width, value: u32) -> bool
    ensures { result ≡ store_changes image.now slot mem.now at (bytes_of width) value }
{
    let [a, b, c, d] = value.to_le_bytes();
    match width {
        Width::B => changes(image, slot, mem, at, a),
        Width::H => pair_changes(image, slot, mem, at, a, b),
        Width::W => {
            pair_changes(image, slot, mem, at, a, b)
                || pair_changes(image, slot, mem, at.wrapping_add(2), c, d)
        }
    }
}

/// A byte that must stay is another after a store. Only the bytes that it takes are looked at.
pub(crate) fn store_breaks(image: &Image, slot: u32, mem: &Memory, store: Option<Stored>) -> bool
    ensures { result ≡ is_broken_of image.now slot mem.now (stored mem.now store) }
{
    match store {
        None => false,
        Some(s) => word_changes(image, slot, mem, s.at, s.width, s.value),
    }
}
