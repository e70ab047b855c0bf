//! How the instruction of a row is made of what its bytes give: a form for each kind of instruction,
//! with the places of its operands.

use x86_inst::{CarryOp, StrOp};

/// The size of a form's operands.
#[derive(Clone, Copy)]
pub enum Sizing {
    /// A byte.
    Byte,
    /// 32 bits, or 16 with the prefix 66.
    Prefixed,
}

/// How an immediate is taken.
#[derive(Clone, Copy)]
pub enum Immediate {
    /// As it stands.
    Plain,
    /// One byte, sign-extended.
    Extended,
}

/// Where an operand stands.
#[derive(Clone, Copy)]
pub enum Source {
    /// The r/m operand of ModRM.
    Rm,
    /// The register of the reg field of ModRM.
    Reg,
    /// The register that is the opcode's place in its row.
    Low,
    /// The register after that.
    AfterLow,
    /// al, ax or eax.
    Accumulator,
    /// The immediate.
    Imm(Immediate),
    /// The memory at the four bytes after the opcode.
    Offset,
}

/// How far a shift goes.
#[derive(Clone, Copy)]
pub enum Shifted {
    ByOne,
    ByImm,
    ByCl,
}

/// How a row's instruction is made. Where nothing else is said, a form reads the r/m operand, and the
/// register of the reg field where it has a register.
#[derive(Clone, Copy)]
pub enum Form {
    /// An operation whose digit is the opcode's place in its row.
    AluByOpcode(Sizing, Source, Source),
    /// An operation whose digit stands in the reg field.
    AluByReg(Sizing, Source, Source),
    Inc(Sizing, Source),
    Dec(Sizing, Source),
    Push(Source),
    Pop(Source),
    Imul3(Immediate),
    Jcc(Immediate),
    Test(Sizing, Source, Source),
    Xchg(Sizing, Source, Source),
    Mov(Sizing, Source, Source),
    Lea,
    Nop,
    Widen,
    Spread,
    Str(StrOp, Sizing),
    Shift(Sizing, Shifted),
    /// A return that takes the immediate off the stack.
    RetImm,
    Ret,
    Leave,
    Trap(u32),
    Loop,
    Jecxz,
    Call,
    Jmp(Immediate),
    Carry(CarryOp),
    Not(Sizing),
    Neg(Sizing),
    Mul(Sizing),
    ImulWide(Sizing),
    Div(Sizing),
    Idiv(Sizing),
    CallTo,
    JmpTo,
    Cmov,
    Set,
    /// A bit operation by the opcode's place in its row, of a register.
    BitByOpcode,
    /// A bit operation by the reg field less 4, of an immediate.
    BitByReg,
    DShift(bool, Shifted),
    Imul2,
    /// From a byte; true with a sign.
    MovxByte(bool),
    /// From 16 bits to 32; true with a sign.
    MovxHalf(bool),
    /// Up (true) or down.
    Scan(bool),
    Bswap,
}
