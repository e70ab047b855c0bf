//! The fields of an instruction, read from the front of some bytes.

ghost use Rattle.std.specs.Prelude.{◌≡◌, ◌/◌, ◌%◌, ◌<◌, ◌≤◌, ◌^◌, length, unwrap_or};
ghost use Rattle.x86_inst.specs.Rows.{width, segment_of, operand_size, sign_extended};
ghost use Rattle.x86_inst.specs.Spelling.{little_endian, mem, index_of, base_of, displacement, displacement_len, scale_of};
ghost use Rattle.x86_decode.specs.View.{prefixes_of};
ghost use Rattle.x86_decode.specs.Reading.{Gives, bytes_at, number_at, prefixes_at, rm_at, displaced_at};

use crate::rows::Prefixes;
use x86_inst::{Mem, Operand, Seg, Size};

/// Why nothing was read.
#[derive(Clone, Copy)]
pub enum Stop {
    /// The bytes end within an instruction.
    Cut,
    /// No instruction begins so.
    Bad,
}

/// Takes some bytes from the front.
fn take(bytes: &[u8], n: usize) -> Result<(&[u8], &[u8]), Stop>
    ensures { Gives (λ x. (x.0.now, x.1.now)) result (bytes_at n bytes.now) }
{
    if bytes.len() < n {
        return Err(Stop::Cut);
    }
    Ok(bytes.split_at(n))
}

/// The number of up to four little-endian bytes.
fn little_endian(bytes: &[u8]) -> u32
    requires { length bytes.now ≤ 4 }
    ensures { result ≡ little_endian bytes.now }
{
    match bytes {
        [a] => u32::from(*a),
        [a, b] => u32::from(*a) + 256 * u32::from(*b),
        [a, b, c] => u32::from(*a) + 256 * (u32::from(*b) + 256 * u32::from(*c)),
        [a, b, c, d] => {
            u32::from(*a) + 256 * (u32::from(*b) + 256 * (u32::from(*c) + 256 * u32::from(*d)))
        }
        _ => 0,
    }
}

/// The low byte, sign-extended to a size.
pub fn sign_extended(size: Size, n: u32) -> u32
    ensures { result ≡ sign_extended size n }
{
    let byte = n % 256;
    match size {
        Size::B => byte,
        Size::H => if byte < 128 { byte } else { byte + 0xFF00 },
        Size::W => if byte < 128 { byte } else { byte + 0xFFFF_FF00 },
    }
}

/// The prefixes at the front, in any order and each group at most once. Some byte follows them.
#[tactic(auto, unfolding(crate::specs::Reading::prefixes_at))]
pub fn prefixes(bytes: &[u8], p: Prefixes) -> Result<(Prefixes, &[u8]), Stop>
    ensures { Gives (λ x. (prefixes_of x.0, x.1.now)) result (prefixes_at (prefixes_of p) bytes.now) }
{
    match bytes {
        [] => Err(Stop::Cut),
        [b, rest @ ..] => match *b {
            0x66 => match p.size {
                None => prefixes(
                    rest,
                    Prefixes {
                        size: Some(*b),
                        ..p
                    },
                ),
                Some(_) => Err(Stop::Bad),
            },
            0x26 | 0x2E | 0x36 | 0x3E | 0x64 | 0x65 => match p.segment {
                None => prefixes(
                    rest,
                    Prefixes {
                        segment: Some(*b),
                        ..p
                    },
                ),
                Some(_) => Err(Stop::Bad),
            },
            0xF2 | 0xF3 => match p.repeat {
                None => prefixes(
                    rest,
                    Prefixes {
                        repeat: Some(*b),
                        ..p
                    },
                ),
                Some(_) => Err(Stop::Bad),
            },
            _ => Ok((p, bytes)),
        },
    }
}

impl Prefixes {
    /// 32 bits, or 16 with 66.
    pub fn operand_size(&self) -> Size
        ensures { result ≡ operand_size self.now.size }
    {
        match self.size {
            None => Size::W,
            Some(_) => Size::H,
        }
    }

    /// The segment that the prefixes name, where it has a base: 64 is FS and 65 is GS.
    pub fn base_segment(&self) -> Seg
        ensures { result ≡ segment_of self.now.segment }
    {
        match self.segment {
            Some(0x64) => Seg::Fs,
            Some(0x65) => Seg::Gs,
            _ => Seg::None,
        }
    }
}

/// How many bytes of displacement a mod and a base have.
fn displacement_len(md: u8, base: u8) -> usize
    ensures value { result ≡ displacement_len md base }
    ensures bound { result ≤ 4 }
{
    match (md, base) {
        (1, _) => 1,
        (2, _) => 4,
        (_, 5) => 4,
        _ => 0,
    }
}

/// The displacement of no, one or four bytes. One is sign-extended.
fn displacement(bytes: &[u8]) -> u32
    requires { length bytes.now ≤ 4 }
    ensures { result ≡ displacement bytes.now }
{
    match bytes {
        [b] => sign_extended(Size::W, u32::from(*b)),
        _ => little_endian(bytes),
    }
}

/// A memory operand, with its displacement at the front of the bytes.
fn displaced(
    seg: Seg,
    md: u8,
    base: u8,
    index: Option<u8>,
    scale: u8,
    bytes: &[u8],
) -> Result<(Operand, &[u8]), Stop>
    ensures { Gives (λ x. (x.0, x.1.now)) result (displaced_at seg md base index scale bytes.now) }
{
    let (disp, rest) = take(bytes, displacement_len(md, base))?;
    let base = if md == 0 && base == 5 {
        None
    } else {
        Some(base)
    };
    let disp = displacement(disp);
    Ok((
        Operand::Mem(Mem {
            base,
            index,
            scale,
            disp,
            seg,
        }),
        rest,
    ))
}

/// The r/m operand of a ModRM byte, completed from the front of the bytes.
#[tactic(auto, unfolding(crate::specs::Reading::rm_at))]
pub fn rm(seg: Seg, md: u8, rm: u8, bytes: &[u8]) -> Result<(Operand, &[u8]), Stop>
    ensures { Gives (λ x. (x.0, x.1.now)) result (rm_at seg md rm bytes.now) }
{
    if md == 3 {
        return Ok((Operand::Reg(rm), bytes));
    }
    if rm == 4 {
        return match bytes {
            [] => Err(Stop::Cut),
            [sib, rest @ ..] => {
                let index = sib / 8 % 8;
                let (index, scale) = if index == 4 {
                    (None, 1)
                } else {
                    (Some(index), scale_of(sib / 64))
                };
                displaced(seg, md, sib % 8, index, scale, rest)
            }
        };
    }
    displaced(seg, md, rm, None, 1, bytes)
}

/// The scale of the top two bits of SIB.
fn scale_of(ss: u8) -> u8
    requires { ss < 4 }
    ensures { result ≡ 2 ^ ss }
{
    match ss {
        0 => 1,
        1 => 2,
        2 => 4,
        _ => 8,
    }
}

/// An immediate of some bytes.
pub fn immediate(bytes: &[u8], n: usize) -> Result<(u32, &[u8]), Stop>
    requires { n ≤ 4 }
    ensures { Gives (λ x. (x.0, x.1.now)) result (number_at n bytes.now) }
{
    let (imm, rest) = take(bytes, n)?;
    Ok((little_endian(imm), rest))
}
