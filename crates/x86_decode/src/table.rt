//! The opcode table, a line a row. (Intel SDM vol. 2, chapters 3 to 5 and appendix A.)

use crate::forms::Form::*;
use crate::forms::Immediate::{Extended, Plain};
use crate::forms::Shifted::{ByCl, ByImm, ByOne};
use crate::forms::Sizing::{Byte, Prefixed};
use crate::forms::Source::{Accumulator, AfterLow, Imm, Low, Offset, Reg, Rm};
use crate::rows::Mode::{
    AnyModRm, Digit, DigitFrom, Exactly, MemoryOnly, RegisterOnly, ShiftDigit,
};
use crate::rows::Repeats::{F2F3Allowed, F3Allowed, F3Needed, Never};
use crate::rows::Width::{Imm8, Imm16, Imm32, ImmV, NoImm};
use crate::rows::{Mode, Row};
use x86_inst::CarryOp::{Clear, Flip, Put};
use x86_inst::StrOp::{Cmps, Lods, Movs, Scas, Stos};

/// A row of one opcode, without prefixes.
macro_rules! row {
    ($first:literal, $modrm:expr, $imm:expr, $form:expr $(, $field:ident: $value:expr)*) => {
        Row { $($field: $value,)* ..Row {
            escape: false,
            first: $first,
            step: 1,
            count: 1,
            sized: false,
            repeats: Never,
            modrm: $modrm,
            imm: $imm,
            form: $form,
        } }
    };
}

const ANY: Option<Mode> = Some(AnyModRm);

/// The rows, in the order of their opcodes.
pub static TABLE: [Row; 114] = [
    // 00+8k, 01+8k, 02+8k, 03+8k; 04+8k ib, 05+8k iz: Alu Eb,Gb; Ev,Gv; Gb,Eb; Gv,Ev; al,ib; eax,iz
    row!(0x00, ANY, NoImm, AluByOpcode(Byte, Rm, Reg), step: 8, count: 8),
    row!(0x01, ANY, NoImm, AluByOpcode(Prefixed, Rm, Reg), step: 8, count: 8, sized: true),
    row!(0x02, ANY, NoImm, AluByOpcode(Byte, Reg, Rm), step: 8, count: 8),
    row!(0x03, ANY, NoImm, AluByOpcode(Prefixed, Reg, Rm), step: 8, count: 8, sized: true),
    row!(0x04, None, Imm8, AluByOpcode(Byte, Accumulator, Imm(Plain)), step: 8, count: 8),
    row!(0x05, None, ImmV, AluByOpcode(Prefixed, Accumulator, Imm(Plain)), step: 8, count: 8, sized: true),
    // 40+r, 48+r: Inc, Dec Zv
    row!(0x40, None, NoImm, Inc(Prefixed, Low), count: 8, sized: true),
    row!(0x48, None, NoImm, Dec(Prefixed, Low), count: 8, sized: true),
    // 50+r, 58+r: Push, Pop Zd
    row!(0x50, None, NoImm, Push(Low), count: 8),
    row!(0x58, None, NoImm, Pop(Low), count: 8),
    // 68 imm32, 6A is: Push
    row!(0x68, None, Imm32, Push(Imm(Plain))),
    row!(0x6A, None, Imm8, Push(Imm(Extended))),
    // 69 iz, 6B is: Imul3 Gv,Ev,imm
    row!(0x69, ANY, ImmV, Imul3(Plain), sized: true),
    row!(0x6B, ANY, Imm8, Imul3(Extended), sized: true),
    // 70+c Jb: Jcc
    row!(0x70, None, Imm8, Jcc(Extended), count: 16),
    // 80 /k ib, 81 /k iz, 83 /k is: Alu Eb; Ev; Ev
    row!(0x80, ANY, Imm8, AluByReg(Byte, Rm, Imm(Plain))),
    row!(0x81, ANY, ImmV, AluByReg(Prefixed, Rm, Imm(Plain)), sized: true),
    row!(0x83, ANY, Imm8, AluByReg(Prefixed, Rm, Imm(Extended)), sized: true),
    // 84, 85: Test Eb,Gb; Ev,Gv
    row!(0x84, ANY, NoImm, Test(Byte, Rm, Reg)),
    row!(0x85, ANY, NoImm, Test(Prefixed, Rm, Reg), sized: true),
    // 86, 87: Xchg Eb,Gb; Ev,Gv
    row!(0x86, ANY, NoImm, Xchg(Byte, Rm, Reg)),
    row!(0x87, ANY, NoImm, Xchg(Prefixed, Rm, Reg), sized: true),
    // 88, 89, 8A, 8B: Mov Eb,Gb; Ev,Gv; Gb,Eb; Gv,Ev
    row!(0x88, ANY, NoImm, Mov(Byte, Rm, Reg)),
    row!(0x89, ANY, NoImm, Mov(Prefixed, Rm, Reg), sized: true),
    row!(0x8A, ANY, NoImm, Mov(Byte, Reg, Rm)),
    row!(0x8B, ANY, NoImm, Mov(Prefixed, Reg, Rm), sized: true),
    // 8D: Lea Gv,M
    row!(0x8D, Some(MemoryOnly), NoImm, Lea, sized: true),
    // 8F /0: Pop Ed
    row!(0x8F, Some(Digit(0)), NoImm, Pop(Rm)),
    // 90; F3 90; FC; F3 0F 1E FB; 0F 1F /0: Nop
    row!(0x90, None, NoImm, Nop, sized: true),
    row!(0x90, None, NoImm, Nop, repeats: F3Needed),
    row!(0xFC, None, NoImm, Nop),
    row!(0x1E, Some(Exactly(0xFB)), NoImm, Nop, escape: true, repeats: F3Needed),
    row!(0x1F, Some(Digit(0)), NoImm, Nop, escape: true, sized: true),
    // 91 to 97: Xchg eax,Zv
    row!(0x91, None, NoImm, Xchg(Prefixed, Accumulator, AfterLow), count: 7, sized: true),
    // 98; 99: Widen; Spread
    row!(0x98, None, NoImm, Widen, sized: true),
    row!(0x99, None, NoImm, Spread, sized: true),
    // A0, A1, A2, A3 O: Mov al,Ob; eax,Ov; Ob,al; Ov,eax
    row!(0xA0, None, Imm32, Mov(Byte, Accumulator, Offset)),
    row!(0xA1, None, Imm32, Mov(Prefixed, Accumulator, Offset), sized: true),
    row!(0xA2, None, Imm32, Mov(Byte, Offset, Accumulator)),
    row!(0xA3, None, Imm32, Mov(Prefixed, Offset, Accumulator), sized: true),
    // A4, A5 (F3); A6, A7 (F3, F2); AA, AB (F3); AC, AD (F3); AE, AF (F3, F2): Movs, Cmps, Stos, Lods, Scas
    row!(0xA4, None, NoImm, Str(Movs, Byte), repeats: F3Allowed),
    row!(0xA5, None, NoImm, Str(Movs, Prefixed), sized: true, repeats: F3Allowed),
    row!(0xA6, None, NoImm, Str(Cmps, Byte), repeats: F2F3Allowed),
    row!(0xA7, None, NoImm, Str(Cmps, Prefixed), sized: true, repeats: F2F3Allowed),
    row!(0xAA, None, NoImm, Str(Stos, Byte), repeats: F3Allowed),
    row!(0xAB, None, NoImm, Str(Stos, Prefixed), sized: true, repeats: F3Allowed),
    row!(0xAC, None, NoImm, Str(Lods, Byte), repeats: F3Allowed),
    row!(0xAD, None, NoImm, Str(Lods, Prefixed), sized: true, repeats: F3Allowed),
    row!(0xAE, None, NoImm, Str(Scas, Byte), repeats: F2F3Allowed),
    row!(0xAF, None, NoImm, Str(Scas, Prefixed), sized: true, repeats: F2F3Allowed),
    // A8 ib, A9 iz: Test al; eax
    row!(0xA8, None, Imm8, Test(Byte, Accumulator, Imm(Plain))),
    row!(0xA9, None, ImmV, Test(Prefixed, Accumulator, Imm(Plain)), sized: true),
    // B0+r ib, B8+r iz: Mov Zb; Zv
    row!(0xB0, None, Imm8, Mov(Byte, Low, Imm(Plain)), count: 8),
    row!(0xB8, None, ImmV, Mov(Prefixed, Low, Imm(Plain)), count: 8, sized: true),
    // C0 /n ib, C1 /n ib, D0 /n, D1 /n, D2 /n, D3 /n, n 0, 1, 4, 5 or 7: Shift Eb; Ev by ib, 1, CL
    row!(0xC0, Some(ShiftDigit), Imm8, Shift(Byte, ByImm)),
    row!(0xC1, Some(ShiftDigit), Imm8, Shift(Prefixed, ByImm), sized: true),
    row!(0xD0, Some(ShiftDigit), NoImm, Shift(Byte, ByOne)),
    row!(0xD1, Some(ShiftDigit), NoImm, Shift(Prefixed, ByOne), sized: true),
    row!(0xD2, Some(ShiftDigit), NoImm, Shift(Byte, ByCl)),
    row!(0xD3, Some(ShiftDigit), NoImm, Shift(Prefixed, ByCl), sized: true),
    // C2 iw; C3; F3 C3: Ret
    row!(0xC2, None, Imm16, RetImm),
    row!(0xC3, None, NoImm, Ret, repeats: F3Allowed),
    // C6 /0 ib, C7 /0 iz: Mov Eb; Ev
    row!(0xC6, Some(Digit(0)), Imm8, Mov(Byte, Rm, Imm(Plain))),
    row!(0xC7, Some(Digit(0)), ImmV, Mov(Prefixed, Rm, Imm(Plain)), sized: true),
    // C9; CC; F4; 0F 0B: Leave; Trap(3); Trap(13); Trap(6)
    row!(0xC9, None, NoImm, Leave),
    row!(0xCC, None, NoImm, Trap(3)),
    row!(0xF4, None, NoImm, Trap(13)),
    row!(0x0B, None, NoImm, Trap(6), escape: true),
    // E2 Jb; E3 Jb: Loop; Jecxz
    row!(0xE2, None, Imm8, Loop),
    row!(0xE3, None, Imm8, Jecxz),
    // E8 Jd; E9 Jd, EB Jb: Call; Jmp
    row!(0xE8, None, Imm32, Call),
    row!(0xE9, None, Imm32, Jmp(Plain)),
    row!(0xEB, None, Imm8, Jmp(Extended)),
    // F5; F8; F9: Carry(Flip); Carry(Clear); Carry(Put)
    row!(0xF5, None, NoImm, Carry(Flip)),
    row!(0xF8, None, NoImm, Carry(Clear)),
    row!(0xF9, None, NoImm, Carry(Put)),
    // F6 /n, F7 /n: /0 Test with ib or iz; /2 Not, /3 Neg, /4 Mul, /5 ImulWide, /6 Div, /7 Idiv
    row!(0xF6, Some(Digit(0)), Imm8, Test(Byte, Rm, Imm(Plain))),
    row!(0xF7, Some(Digit(0)), ImmV, Test(Prefixed, Rm, Imm(Plain)), sized: true),
    row!(0xF6, Some(Digit(2)), NoImm, Not(Byte)),
    row!(0xF7, Some(Digit(2)), NoImm, Not(Prefixed), sized: true),
    row!(0xF6, Some(Digit(3)), NoImm, Neg(Byte)),
    row!(0xF7, Some(Digit(3)), NoImm, Neg(Prefixed), sized: true),
    row!(0xF6, Some(Digit(4)), NoImm, Mul(Byte)),
    row!(0xF7, Some(Digit(4)), NoImm, Mul(Prefixed), sized: true),
    row!(0xF6, Some(Digit(5)), NoImm, ImulWide(Byte)),
    row!(0xF7, Some(Digit(5)), NoImm, ImulWide(Prefixed), sized: true),
    row!(0xF6, Some(Digit(6)), NoImm, Div(Byte)),
    row!(0xF7, Some(Digit(6)), NoImm, Div(Prefixed), sized: true),
    row!(0xF6, Some(Digit(7)), NoImm, Idiv(Byte)),
    row!(0xF7, Some(Digit(7)), NoImm, Idiv(Prefixed), sized: true),
    // FE /0, /1; FF /0, /1: Inc, Dec Eb; Ev
    row!(0xFE, Some(Digit(0)), NoImm, Inc(Byte, Rm)),
    row!(0xFE, Some(Digit(1)), NoImm, Dec(Byte, Rm)),
    row!(0xFF, Some(Digit(0)), NoImm, Inc(Prefixed, Rm), sized: true),
    row!(0xFF, Some(Digit(1)), NoImm, Dec(Prefixed, Rm), sized: true),
    // FF /2; FF /4; FF /6: CallTo; JmpTo; Push Ed
    row!(0xFF, Some(Digit(2)), NoImm, CallTo),
    row!(0xFF, Some(Digit(4)), NoImm, JmpTo),
    row!(0xFF, Some(Digit(6)), NoImm, Push(Rm)),
    // 0F 40+c: Cmov Gv,Ev
    row!(0x40, ANY, NoImm, Cmov, escape: true, count: 16, sized: true),
    // 0F 80+c Jd: Jcc
    row!(0x80, None, Imm32, Jcc(Plain), escape: true, count: 16),
    // 0F 90+c, any reg field: Set Eb
    row!(0x90, ANY, NoImm, Set, escape: true, count: 16),
    // 0F A3, AB, B3, BB, mod 3 alone: Bit Ev,Gv
    row!(0xA3, Some(RegisterOnly), NoImm, BitByOpcode, escape: true, step: 8, count: 4, sized: true),
    // 0F BA /4 to /7 ib: Bit Ev,ib
    row!(0xBA, Some(DigitFrom(4)), Imm8, BitByReg, escape: true, sized: true),
    // 0F A4 ib, A5; AC ib, AD: DShift Ed,Gd; A5 and AD by CL
    row!(0xA4, ANY, Imm8, DShift(true, ByImm), escape: true),
    row!(0xA5, ANY, NoImm, DShift(true, ByCl), escape: true),
    row!(0xAC, ANY, Imm8, DShift(false, ByImm), escape: true),
    row!(0xAD, ANY, NoImm, DShift(false, ByCl), escape: true),
    // 0F AF: Imul2 Gv,Ev
    row!(0xAF, ANY, NoImm, Imul2, escape: true, sized: true),
    // 0F B6, B7, BE, BF: Movx Gv,Eb; Gd,Ew; Gv,Eb signed; Gd,Ew signed
    row!(0xB6, ANY, NoImm, MovxByte(false), escape: true, sized: true),
    row!(0xB7, ANY, NoImm, MovxHalf(false), escape: true),
    row!(0xBE, ANY, NoImm, MovxByte(true), escape: true, sized: true),
    row!(0xBF, ANY, NoImm, MovxHalf(true), escape: true),
    // 0F BC (also F3); 0F BD: Scan Gv,Ev
    row!(0xBC, ANY, NoImm, Scan(true), escape: true, sized: true, repeats: F3Allowed),
    row!(0xBD, ANY, NoImm, Scan(false), escape: true, sized: true),
    // 0F C8+r: Bswap
    row!(0xC8, None, NoImm, Bswap, escape: true, count: 8),
];
