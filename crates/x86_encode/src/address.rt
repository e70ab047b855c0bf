//! The least ModRM, SIB and displacement of an operand. (Intel SDM vol. 2, 2.1.5.)

ghost use Rattle.std.specs.Prelude.{◌≡◌, ◌+◌, ◌*◌, ◌<◌, ◌≤◌, IfSome, IsSome, IsTrue};
ghost use Rattle.x86_encode.specs.Bytes.{bytes_of, fits_byte, least_mod, scale_bits, is_scale, with_memory, with_rm, is_address, is_rm};

use crate::code::Code;
use x86_inst::{Mem, Operand};

/// A ModRM or SIB byte: its top two bits, and two fields of three bits.
fn packed(top: u8, middle: u8, low: u8) -> u8
    requires top { top < 4 }
    requires middle { middle < 8 }
    requires low { low < 8 }
    ensures { result ≡ 64 * top + 8 * middle + low }
{
    64 * top + 8 * middle + low
}

/// Whether a number is that of a sign-extended byte.
fn fits_byte(n: u32) -> bool
    ensures { result ≡ fits_byte n }
{
    n < 128 || 0xFFFF_FF80 <= n
}

/// The least mod that a displacement from a base has: ebp always has one.
fn least_mod(base: u8, disp: u32) -> u8
    ensures value { result ≡ least_mod base disp }
    ensures bound { result < 3 }
{
    if disp == 0 {
        if base == 5 { 1 } else { 0 }
    } else if fits_byte(disp) {
        1
    } else {
        2
    }
}

/// The top two bits of SIB of a scale.
fn scale_bits(scale: u8) -> Option<u8>
    ensures value { IfSome result (λ n. n ≡ scale_bits scale) }
    ensures bound { IfSome result (λ n. n < 4) }
    ensures some { IsTrue (is_scale scale) → IsSome result }
{
    match scale {
        1 => Some(0),
        2 => Some(1),
        4 => Some(2),
        8 => Some(3),
        _ => None,
    }
}

impl Code {
    /// The bytes of an address, with a register in the reg field. None where a field doesn't fit.
    fn with_memory(self, reg: u8, m: &Mem) -> Option<Code>
        requires room { self.len < 10 }
        requires reg { reg < 8 }
        ensures value { IfSome result (λ c. bytes_of c ≡ with_memory (bytes_of self) reg m.now.base m.now.index m.now.scale m.now.disp) }
        ensures len { IfSome result (λ c. c.len ≤ self.len + 6) }
        ensures some { IsTrue (is_address m.now) → IsSome result }
    {
        match (m.base, m.index) {
            (None, None) => Some(self.with(packed(0, reg, 5)).with_word(m.disp)),
            (None, Some(x)) => {
                if x > 7 {
                    return None;
                }
                let sib = packed(scale_bits(m.scale)?, x, 5);
                Some(self.with_two(packed(0, reg, 4), sib).with_word(m.disp))
            }
            (Some(b), None) => {
                if b > 7 {
                    return None;
                }
                let md = least_mod(b, m.disp);
                let code = if b == 4 {
                    self.with_two(packed(md, reg, 4), 0x24)
                } else {
                    self.with(packed(md, reg, b))
                };
                Some(code.with_displacement(md, m.disp))
            }
            (Some(b), Some(x)) => {
                if b > 7 || x > 7 {
                    return None;
                }
                let md = least_mod(b, m.disp);
                let sib = packed(scale_bits(m.scale)?, x, b);
                Some(
                    self.with_two(packed(md, reg, 4), sib)
                        .with_displacement(md, m.disp),
                )
            }
        }
    }

    /// The bytes of an r/m operand. None where it isn't one, or a field doesn't fit.
    pub(crate) fn with_rm(self, reg: u8, operand: Operand) -> Option<Code>
        requires { self.len < 10 }
        ensures value { IfSome result (λ c. bytes_of c ≡ with_rm (bytes_of self) reg operand) }
        ensures len { IfSome result (λ c. c.len ≤ self.len + 6) }
        ensures some { IsTrue (is_rm reg operand) → IsSome result }
    {
        if reg > 7 {
            return None;
        }
        match operand {
            Operand::Reg(r) => if r < 8 {
                Some(self.with(packed(3, reg, r)))
            } else {
                None
            },
            Operand::Mem(m) => self.with_memory(reg, &m),
            Operand::Imm(_) => None,
        }
    }
}
