//! The least bytes of a row that give some fields.

ghost use Rattle.std.specs.Prelude.{◌≡◌, ◌+◌, ◌<◌, ◌≤◌, IfSome, IsSome};
ghost use Rattle.x86_inst.specs.Spelling.{opcode, opcode_bytes};
ghost use Rattle.x86_decode.specs.View.{fields_of, row_of};
ghost use Rattle.x86_encode.specs.Bytes.{bytes_of, size_prefix, segment_prefix, prefix_bytes, with_modrm, reg_for, spelling_of, HasSpelling};

use crate::code::Code;
use x86_decode::{Fields, Mode, Row};
use x86_inst::{Seg, Size};

fn size_prefix(size: Size) -> Option<u8>
    ensures { result ≡ size_prefix size }
{
    match size {
        Size::H => Some(0x66),
        Size::B | Size::W => None,
    }
}

fn segment_prefix(segment: Seg) -> Option<u8>
    ensures { result ≡ segment_prefix segment }
{
    match segment {
        Seg::None => None,
        Seg::Fs => Some(0x64),
        Seg::Gs => Some(0x65),
    }
}

/// The prefixes, the least first.
fn prefixes(f: &Fields) -> Code
    ensures bytes { bytes_of result ≡ prefix_bytes (fields_of f.now) }
    ensures len { result.len ≤ 3 }
{
    Code::empty()
        .with_some(segment_prefix(f.segment))
        .with_some(size_prefix(f.size))
        .with_some(f.repeat)
}

/// The opcode of a place in a row, where it is a byte.
fn opcode_of(row: &Row, low: u8) -> Option<u8>
    ensures value { IfSome result (λ op. op ≡ opcode (row_of row.now) low) }
    ensures some { opcode (row_of row.now) low < 256 → IsSome result }
{
    let op = u32::from(row.first) + u32::from(row.step) * u32::from(low);
    if op < 256 { Some(op as u8) } else { None }
}

/// The reg field: the digit of a mode, or the register.
fn reg_for(mode: Mode, reg: u8) -> u8
    ensures { result ≡ reg_for mode reg }
{
    match mode {
        Mode::Digit(d) => d,
        _ => reg,
    }
}

/// The least bytes of a row that give the fields.
pub fn candidate(row: &Row, f: &Fields) -> Option<Code>
    ensures value { IfSome result (λ c. bytes_of c ≡ spelling_of row.now (fields_of f.now)) }
    ensures len { IfSome result (λ c. c.len ≤ 15) }
    ensures some { HasSpelling row.now (fields_of f.now) → IsSome result }
{
    let op = opcode_of(row, f.low)?;
    let code = prefixes(f);
    let code = if row.escape {
        code.with_two(0x0F, op)
    } else {
        code.with(op)
    };
    let code = match row.modrm {
        None => code,
        Some(mode) => code.with_rm(reg_for(mode, f.reg), f.rm)?,
    };
    Some(code.with_immediate(row.imm.len(f.size), f.imm))
}
