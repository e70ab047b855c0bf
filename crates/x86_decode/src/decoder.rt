//! Reads an instruction from left to right: prefixes, opcode, ModRM, immediate.

ghost use Rattle.std.specs.Prelude.{◌≡◌, ◌<◌};
ghost use Rattle.x86_inst.specs.Spelling.{OneReading};
ghost use Rattle.x86_decode.specs.Decodes.{Decodes};
ghost use Rattle.x86_decode.specs.View.{prefixes_of, row_of};
ghost use Rattle.x86_decode.specs.Reading.{Gives, completes_at, operands_at, row_at, follows_at, read_at};

use crate::build::{Fields, build};
use crate::fields::{Stop, immediate, prefixes, rm};
use crate::find::{allows_escape, opening, opening_at};
use crate::rows::{Prefixes, Row};
use x86_inst::{Inst, Operand};

/// What some bytes begin with. (Intel SDM vol. 2, 2.1.)
#[derive(Clone, Copy, PartialEq, Eq)]
pub enum Decoded {
    /// An instruction, with its length in bytes, 1 to 15.
    Inst(Inst, u8),
    /// No instruction yet, and more bytes could make one.
    Cut,
    /// No instruction, whatever follows.
    None,
}

/// What follows a ModRM byte.
#[tactic(auto, unfolding(crate::specs::Reading::completes_at))]
fn completes<'a>(
    row: &Row,
    p: &Prefixes,
    low: u8,
    modrm: u8,
    bytes: &'a [u8],
) -> Result<(Inst, &'a [u8]), Stop>
    requires { low < 255 }
    ensures { Gives (λ x. (x.0, x.1.now)) result (completes_at (row_of row.now) (prefixes_of p.now) low modrm bytes.now) }
{
    let size = p.operand_size();
    let segment = p.base_segment();
    let (rm, rest) = rm(segment, modrm / 64, modrm % 8, bytes)?;
    let (imm, rest) = immediate(rest, row.imm.len(size))?;
    let reg = modrm / 8 % 8;
    let repeat = p.repeat;
    Ok((
        build(
            row.form,
            &Fields {
                size,
                segment,
                repeat,
                low,
                reg,
                rm,
                imm,
            },
        ),
        rest,
    ))
}

/// What follows an opcode, by the first of its rows: rows of one opcode all have ModRM, or there is one.
fn operands<'a>(
    p: &Prefixes,
    escape: bool,
    op: u8,
    row: &Row,
    bytes: &'a [u8],
) -> Result<(Inst, &'a [u8]), Stop>
    ensures { Gives (λ x. (x.0, x.1.now)) result (operands_at (prefixes_of p.now) escape op (row_of row.now) (row_of row.now).modrm bytes.now) }
{
    if row.modrm.is_none() {
        let size = p.operand_size();
        let (imm, rest) = immediate(bytes, row.imm.len(size))?;
        let low = row.place(op).unwrap_or(0);
        let (segment, repeat, rm) = (p.base_segment(), p.repeat, Operand::Reg(0));
        return Ok((
            build(
                row.form,
                &Fields {
                    size,
                    segment,
                    repeat,
                    low,
                    reg: 0,
                    rm,
                    imm,
                },
            ),
            rest,
        ));
    }
    match bytes {
        [] => Err(Stop::Cut),
        [modrm, rest @ ..] => match opening_at(p, escape, op, *modrm) {
            None => Err(Stop::Bad),
            Some(row) => completes(row, p, row.place(op).unwrap_or(0), *modrm, rest),
        },
    }
}

/// What follows an opcode.
#[tactic(auto, unfolding(crate::specs::Reading::row_at))]
fn opcode<'a>(p: &Prefixes, escape: bool, op: u8, bytes: &'a [u8]) -> Result<(Inst, &'a [u8]), Stop>
    ensures { Gives (λ x. (x.0, x.1.now)) result (row_at (prefixes_of p.now) escape op bytes.now) }
{
    match opening(p, escape, op) {
        None => Err(Stop::Bad),
        Some(row) => operands(p, escape, op, row, bytes),
    }
}

/// What follows the prefixes.
#[tactic(auto, unfolding(crate::specs::Reading::follows_at))]
fn follows<'a>(p: &Prefixes, bytes: &'a [u8]) -> Result<(Inst, &'a [u8]), Stop>
    ensures { Gives (λ x. (x.0, x.1.now)) result (follows_at (prefixes_of p.now) bytes.now) }
{
    match bytes {
        [] => Err(Stop::Cut),
        [0x0F, rest @ ..] => {
            if !allows_escape(p) {
                return Err(Stop::Bad);
            }
            match rest {
                [] => Err(Stop::Cut),
                [op, rest @ ..] => opcode(p, true, *op, rest),
            }
        }
        [op, rest @ ..] => opcode(p, false, *op, rest),
    }
}

/// An instruction, and the bytes after it.
#[tactic(auto, unfolding(crate::specs::Reading::read_at))]
fn read(bytes: &[u8]) -> Result<(Inst, &[u8]), Stop>
    ensures { Gives (λ x. (x.0, x.1.now)) result (read_at bytes.now) }
{
    let none = Prefixes {
        size: None,
        segment: None,
        repeat: None,
    };
    let (p, rest) = prefixes(bytes, none)?;
    follows(&p, rest)
}

/// The instruction at the front of the bytes.
pub fn decode(bytes: &[u8]) -> Decoded
    ensures { Decodes bytes.now result }
{
    match read(bytes) {
        Ok((inst, rest)) => Decoded::Inst(inst, (bytes.len() - rest.len()) as u8),
        Err(Stop::Cut) => Decoded::Cut,
        Err(Stop::Bad) => Decoded::None,
    }
}

/// The law that no spelling is a proper prefix of another, and that bytes spell at most one
/// instruction. It does nothing.
pub fn one_reading()
    ensures { OneReading }
{}
