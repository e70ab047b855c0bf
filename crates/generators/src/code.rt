//! Nests, ladders and the other functions, as bytes.

ghost use Rattle.std.specs.Prelude.{◌≡◌, ◌≤◌, ◌*◌, ◌<◌, ◌^◌, ◌++◌, OnOk};
ghost use Rattle.generators.specs.Code.{word, times, nest, nest_end, nest_ends, ladder, constant, caller, switcher, table};

use std::alloc::AllocError;

/// A word in four bytes, the lowest first.
pub fn push_word(bytes: &mut Vec<u8>, n: u32) -> Result<(), AllocError>
    ensures { OnOk result (bytes.new.items ≡ bytes.old.items ++ word n) }
{
    bytes.extend_from_slice(&n.to_le_bytes())
}

// The same bytes so many times.
fn push_times(bytes: &mut Vec<u8>, n: u32, part: &[u8]) -> Result<(), AllocError>
    ensures { OnOk result (bytes.new.items ≡ bytes.old.items ++ times n part.now) }
{
    for _ in 0..n {
        bytes.extend_from_slice(part)?;
    }
    Ok(())
}

// The end of loop j of a nest.
fn push_nest_end(bytes: &mut Vec<u8>, j: u32) -> Result<(), AllocError>
    requires small { 9 * j ≤ 2 ^ 32 }
    ensures { OnOk result (bytes.new.items ≡ bytes.old.items ++ nest_end j) }
{
    bytes.extend_from_slice(&[0xa8, 0x01, 0x0f, 0x85])?;
    push_word(bytes, 0u32.wrapping_sub(9 * j))
}

// The ends of so many loops.
fn push_nest_ends(bytes: &mut Vec<u8>, d: u32) -> Result<(), AllocError>
    requires few { d ≤ 1000 }
    ensures { OnOk result (bytes.new.items ≡ bytes.old.items ++ nest_ends d) }
{
    for j in 0..d {
        push_nest_end(bytes, j + 1)?;
    }
    Ok(())
}

/// So many loops, one inside the other, and a return.
pub fn push_nest(bytes: &mut Vec<u8>, d: u32) -> Result<(), AllocError>
    requires few { d ≤ 1000 }
    ensures { OnOk result (bytes.new.items ≡ bytes.old.items ++ nest d) }
{
    push_times(bytes, d, &[0x40])?;
    push_nest_ends(bytes, d)?;
    bytes.push(0xc3)?;
    Ok(())
}

const RUNG: [u8; 15] = [
    0x40, 0xa8, 0x01, 0x75, 0x11, 0xeb, 0x08, 0x41, 0xf6, 0xc1, 0x01, 0x75, 0x02, 0xeb, 0x07,
];

/// So many pairs of branches, and two ends.
pub fn push_ladder(bytes: &mut Vec<u8>, d: u32) -> Result<(), AllocError>
    ensures { OnOk result (bytes.new.items ≡ bytes.old.items ++ ladder d) }
{
    push_times(bytes, d, &RUNG)?;
    bytes.extend_from_slice(&[0xc3, 0x90, 0x90, 0x90, 0x90, 0x90, 0x90, 0xc3])
}

/// A function that gives a constant.
pub fn push_constant(bytes: &mut Vec<u8>, k: u32) -> Result<(), AllocError>
    ensures { OnOk result (bytes.new.items ≡ bytes.old.items ++ constant k) }
{
    bytes.push(0xb8)?;
    push_word(bytes, k)?;
    bytes.push(0xc3)?;
    Ok(())
}

/// A function at an address that calls another.
pub fn push_caller(bytes: &mut Vec<u8>, at: u32) -> Result<(), AllocError>
    requires low { at < 2 ^ 31 }
    ensures { OnOk result (bytes.new.items ≡ bytes.old.items ++ caller at) }
{
    bytes.extend_from_slice(&[0x50, 0xe8])?;
    push_word(bytes, 0x0804_7000u32.wrapping_sub(at + 6))?;
    bytes.extend_from_slice(&[0x59, 0xc3])
}

/// A function at an address with a switch by a table.
pub fn push_switcher(bytes: &mut Vec<u8>, at: u32) -> Result<(), AllocError>
    requires low { at < 2 ^ 31 }
    ensures { OnOk result (bytes.new.items ≡ bytes.old.items ++ switcher at) }
{
    bytes.extend_from_slice(&[0x83, 0xf8, 0x02, 0x77, 0x07, 0xff, 0x24, 0x85])?;
    push_word(bytes, at + 15)?;
    bytes.extend_from_slice(&[0x31, 0xc0, 0xc3])
}

/// The table of that switch.
pub fn push_table(bytes: &mut Vec<u8>, at: u32) -> Result<(), AllocError>
    requires low { at < 2 ^ 31 }
    ensures { OnOk result (bytes.new.items ≡ bytes.old.items ++ table at) }
{
    push_word(bytes, at + 12)?;
    push_word(bytes, at + 14)?;
    push_word(bytes, at + 12)
}
