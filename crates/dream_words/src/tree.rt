//! The bytes that a memory keeps, in a tree by address.

ghost use Rattle.std.specs.Prelude.{◌≡◌, ℕ, ◌+◌, ◌%◌, ◌^◌, ◌<◌, ◌==◌, ◌&&◌, not, is_some, length, All, count_by, OnOk, OnErr};
ghost use Rattle.std.specs.Ordering.{nat_cmp};
ghost use Rattle.std.specs.BTreeMap.{ContainsKey, IsOrdered, keys, get};
ghost use Rattle.dream_words.specs.Memory.{byte_at, differences, place, seen, with_byte};

use std::alloc::AllocError;
use std::collections::BTreeMap;

/// Puts bytes at an address and the ones after it, which wrap around, or changes nothing.
pub(crate) fn put_all(tree: &mut BTreeMap<u32, u8>, a: u32, bytes: &[u8]) -> Result<(), AllocError>
    ensures ok { OnOk result (seen tree.new.entries ≡ place (seen tree.old.entries) a bytes.now) }
    ensures err { OnErr result (seen tree.new.entries ≡ seen tree.old.entries) }
{
    // Only this may be refused, and nobody sees the zeros that it leaves.
    make_room(tree, a, bytes.len())?;
    overwrite(tree, a, bytes);
    Ok(())
}

/// Makes room for some bytes at an address and the ones after it.
fn make_room(tree: &mut BTreeMap<u32, u8>, a: u32, count: usize) -> Result<(), AllocError>
    ensures same { seen tree.new.entries ≡ seen tree.old.entries }
    ensures room { OnOk result ((k : ℕ) → k < count → ContainsKey nat_cmp tree.new ((a + k) % 2 ^ 32)) }
{
    let mut at = a;
    for _k in 0..count {
        make_room_at(tree, at)?;
        at = at.wrapping_add(1);
    }
    Ok(())
}

/// Makes room for a byte at an address.
fn make_room_at(tree: &mut BTreeMap<u32, u8>, a: u32) -> Result<(), AllocError>
    ensures same { seen tree.new.entries ≡ seen tree.old.entries }
    ensures room { OnOk result (ContainsKey nat_cmp tree.new a) }
    ensures keeps { (q : ℕ) → ContainsKey nat_cmp tree.old q → ContainsKey nat_cmp tree.new q }
{
    if !keeps(tree, a) {
        tree.insert(a, 0)?;
    }
    Ok(())
}

/// Puts bytes at an address and the ones after it, where there is room for them.
fn overwrite(tree: &mut BTreeMap<u32, u8>, a: u32, bytes: &[u8])
    requires { (k : ℕ) → k < length bytes.now → ContainsKey nat_cmp tree.old ((a + k) % 2 ^ 32) }
    ensures { seen tree.new.entries ≡ place (seen tree.old.entries) a bytes.now }
{
    let mut at = a;
    for byte in bytes {
        overwrite_at(tree, at, *byte);
        at = at.wrapping_add(1);
    }
}

/// Puts a byte at an address, where there is room for it.
fn overwrite_at(tree: &mut BTreeMap<u32, u8>, a: u32, v: u8)
    requires { ContainsKey nat_cmp tree.old a }
    ensures set { seen tree.new.entries ≡ with_byte (seen tree.old.entries) a v }
    ensures keys { keys tree.new ≡ keys tree.old }
{
    if let Some(byte) = tree.get_mut(&a) {
        *byte = v;
    }
}

/// There is an entry at an address, which may be 0.
fn keeps(tree: &BTreeMap<u32, u8>, a: u32) -> bool
    ensures { result ≡ is_some (get nat_cmp tree.now a) }
{
    tree.contains_key(&a)
}

/// The byte at an address; one that the tree doesn't keep is 0.
pub(crate) fn byte(tree: &BTreeMap<u32, u8>, a: u32) -> u8
    ensures { result ≡ byte_at (seen tree.now.entries) a }
{
    tree.get(&a).copied().unwrap_or(0)
}

/// At how many addresses two trees have different bytes.
pub(crate) fn differences(one: &BTreeMap<u32, u8>, other: &BTreeMap<u32, u8>) -> u64
    ensures { result ≡ differences (seen one.now.entries) (seen other.now.entries) }
{
    changed(one, other) + added(one, other)
}

/// How many of the bytes that a tree keeps another one has otherwise.
fn changed(tree: &BTreeMap<u32, u8>, other: &BTreeMap<u32, u8>) -> u64
    ensures count { result ≡ count_by (λ e. not (e.1 == byte_at (seen other.now.entries) e.0)) tree.now.entries }
    ensures small { result < 2 ^ 63 }
    ensures ordered { IsOrdered nat_cmp tree.now }
    ensures addresses { All (λ e. e.0 < 2 ^ 32) tree.now.entries }
{
    let mut count = 0;
    for (a, v) in tree.iter() {
        if *v != byte(other, *a) {
            count += 1;
        }
    }
    count
}

/// How many bytes that aren't 0 another tree keeps where the first keeps none.
fn added(tree: &BTreeMap<u32, u8>, other: &BTreeMap<u32, u8>) -> u64
    ensures count { result ≡ count_by (λ e. not (is_some (get nat_cmp tree.now e.0)) && not (e.1 == 0)) other.now.entries }
    ensures small { result < 2 ^ 63 }
    ensures ordered { IsOrdered nat_cmp other.now }
    ensures addresses { All (λ e. e.0 < 2 ^ 32) other.now.entries }
{
    let mut count = 0;
    for (a, v) in other.iter() {
        if !keeps(tree, *a) && *v != 0 {
            count += 1;
        }
    }
    count
}
