//! The fields that bytes of a form must give, by the parts of its instruction.

ghost use Rattle.std.specs.Prelude.{◌≡◌};
ghost use Rattle.x86_decode.specs.View.{fields_of};
ghost use Rattle.x86_encode.specs.Parts.{named_segment, register_of, number_in, stored, with_operand, with_size, fields_from};

use crate::parts::Parts;
use x86_decode::{Fields, Form, Immediate, Sizing, Source};
use x86_inst::{Mem, Operand, Seg, Size};

const NO_FIELDS: Fields = Fields {
    size: Size::W,
    segment: Seg::None,
    repeat: None,
    low: 0,
    reg: 0,
    rm: Operand::Reg(0),
    imm: 0,
};

/// The segment that an operand names.
fn named_segment(operand: Operand) -> Seg
    ensures { result ≡ named_segment operand }
{
    match operand {
        Operand::Mem(m) => m.seg,
        _ => Seg::None,
    }
}

/// The register that an operand is, or 0.
fn register_of(operand: Operand) -> u8
    ensures { result ≡ register_of operand }
{
    match operand {
        Operand::Reg(r) => r,
        _ => 0,
    }
}

/// The number that an operand is, or its displacement, or 0.
fn number_in(operand: Operand) -> u32
    ensures { result ≡ number_in operand }
{
    match operand {
        Operand::Reg(_) => 0,
        Operand::Mem(m) => m.disp,
        Operand::Imm(n) => n,
    }
}

/// The immediate that is taken to be a number.
fn stored(imm: Immediate, n: u32) -> u32
    ensures { result ≡ stored imm n }
{
    match imm {
        Immediate::Plain => n,
        Immediate::Extended => n % 256,
    }
}

/// The fields, with an operand at its place.
fn with_operand(f: Fields, source: Source, operand: Operand) -> Fields
    ensures { fields_of result ≡ with_operand source operand (fields_of f) }
{
    match source {
        Source::Rm => Fields {
            rm: operand,
            segment: named_segment(operand),
            ..f
        },
        Source::Reg => Fields {
            reg: register_of(operand),
            ..f
        },
        Source::Low => Fields {
            low: register_of(operand),
            ..f
        },
        Source::AfterLow => Fields {
            low: register_of(operand).saturating_sub(1),
            ..f
        },
        Source::Accumulator => f,
        Source::Imm(imm) => Fields {
            imm: stored(imm, number_in(operand)),
            ..f
        },
        Source::Offset => {
            Fields {
                imm: number_in(operand),
                segment: named_segment(operand),
                ..f
            }
        }
    }
}

/// The fields, with the size where a form has more than one.
fn with_size(f: Fields, sizing: Sizing, size: Size) -> Fields
    ensures { fields_of result ≡ with_size sizing size (fields_of f) }
{
    match sizing {
        Sizing::Byte => f,
        Sizing::Prefixed => Fields { size, ..f },
    }
}

/// The fields of a form that an instruction of these parts shows.
pub fn shown(form: Form, p: &Parts) -> Fields
    ensures { fields_of result ≡ fields_from form p.now }
{
    let none = NO_FIELDS;
    let rm = with_operand(none, Source::Rm, p.first);
    match form {
        Form::AluByOpcode(z, a, b) => {
            let f = with_operand(
                Fields {
                    low: p.digit,
                    ..none
                },
                b,
                p.second,
            );
            with_size(with_operand(f, a, p.first), z, p.size)
        }
        Form::AluByReg(z, a, b) => {
            let f = with_operand(
                Fields {
                    reg: p.digit,
                    ..none
                },
                b,
                p.second,
            );
            with_size(with_operand(f, a, p.first), z, p.size)
        }
        Form::Inc(z, a) | Form::Dec(z, a) => with_size(with_operand(none, a, p.first), z, p.size),
        Form::Push(a) | Form::Pop(a) => with_operand(none, a, p.first),
        Form::Imul3(imm) => {
            Fields {
                size: p.size,
                reg: p.reg,
                imm: stored(imm, p.number),
                ..rm
            }
        }
        Form::Jcc(imm) => Fields {
            low: p.digit,
            imm: stored(imm, p.number),
            ..none
        },
        Form::Test(z, a, b) | Form::Xchg(z, a, b) | Form::Mov(z, a, b) => {
            let f = with_operand(none, b, p.second);
            with_size(with_operand(f, a, p.first), z, p.size)
        }
        Form::Nop | Form::Ret | Form::Leave | Form::Trap(_) | Form::Carry(_) => none,
        Form::Widen | Form::Spread => Fields {
            size: p.size,
            ..none
        },
        Form::Str(_, z) => {
            with_size(
                Fields {
                    repeat: p.repeat,
                    segment: p.segment,
                    ..none
                },
                z,
                p.size,
            )
        }
        Form::Shift(z, _) => {
            with_size(
                Fields {
                    reg: p.digit,
                    imm: p.number,
                    ..rm
                },
                z,
                p.size,
            )
        }
        Form::RetImm | Form::Call => Fields {
            imm: p.number,
            ..none
        },
        Form::Loop | Form::Jecxz => {
            Fields {
                imm: stored(Immediate::Extended, p.number),
                ..none
            }
        }
        Form::Jmp(imm) => Fields {
            imm: stored(imm, p.number),
            ..none
        },
        Form::Not(z)
        | Form::Neg(z)
        | Form::Mul(z)
        | Form::ImulWide(z)
        | Form::Div(z)
        | Form::Idiv(z) => with_size(rm, z, p.size),
        Form::CallTo | Form::JmpTo => rm,
        Form::Cmov => Fields {
            low: p.digit,
            size: p.size,
            reg: p.reg,
            ..rm
        },
        Form::Set => Fields { low: p.digit, ..rm },
        Form::BitByOpcode => Fields {
            low: p.digit.saturating_sub(4),
            size: p.size,
            reg: register_of(p.second),
            ..rm
        },
        Form::BitByReg => {
            Fields {
                reg: p.digit,
                size: p.size,
                imm: number_in(p.second),
                ..rm
            }
        }
        Form::DShift(_, _) => Fields {
            reg: p.reg,
            imm: p.number,
            ..rm
        },
        Form::Lea | Form::Imul2 | Form::MovxByte(_) => Fields {
            size: p.size,
            reg: p.reg,
            ..rm
        },
        Form::MovxHalf(_) => Fields { reg: p.reg, ..rm },
        Form::Scan(_) => Fields {
            size: p.size,
            reg: p.reg,
            repeat: p.repeat,
            ..rm
        },
        Form::Bswap => Fields { low: p.reg, ..none },
    }
}
