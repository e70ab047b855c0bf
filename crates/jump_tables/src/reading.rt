//! The instruction at an address of a range.

ghost use Rattle.std.specs.Prelude.{◌≡◌, ◌+◌, ◌-◌, ◌^◌, ◌≤◌, min, take, if◌then◌else◌};
ghost use Rattle.elf_image.specs.Range.{is_inside, bytes_to_end};
ghost use Rattle.jump_tables.specs.Window.{IsInstAt};

use elf_image::{Image, Range};
use x86_decode::{Decoded, decode};
use x86_inst::Inst;

// No instruction is longer.
const MOST_BYTES: u32 = 15;

// How many addresses there are from an address up to the range's end and to 0xffffffff, or 15 where there are more.
fn room(r: &Range, at: u32) -> u32
    ensures { result ≡ min 15 (if is_inside r.now at then min (r.now.entry + r.now.size) (2 ^ 32) - at else 0) }
{
    if !r.is_inside(at) {
        return 0;
    }
    let end = (u64::from(r.entry) + u64::from(r.size)).min(0x1_0000_0000);
    (end - u64::from(at)).min(u64::from(MOST_BYTES)) as u32
}

// Reads the first of the bytes up to the range's end, 15 at most, and says how many there are.
fn read(m: &Image, r: &Range, at: u32, bytes: &mut [u8; 15]) -> usize
    ensures within { result ≤ 15 }
    ensures read { take result bytes.new ≡ take 15 (bytes_to_end m.now r.now at) }
{
    for k in 0..room(r, at) {
        match m.frozen(at + k) {
            None => return k as usize,
            Some(byte) => bytes[k as usize] = byte,
        }
    }
    room(r, at) as usize
}

/// The instruction that begins at an address, with its length in bytes, or None where none begins.
pub fn inst_at(m: &Image, r: &Range, at: u32) -> Option<(Inst, u8)>
    ensures { IsInstAt m.now r.now at result }
{
    let mut bytes = [0; 15];
    let count = read(m, r, at, &mut bytes);
    match decode(&bytes[..count]) {
        Decoded::Inst(inst, size) => Some((inst, size)),
        Decoded::Cut => None,
        Decoded::None => None,
    }
}
