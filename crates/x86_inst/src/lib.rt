//! Instructions of the i386 as plain data.
//! Given nothing: these are types alone, the parts that an instruction shows.
//! Promises, in specs/: which bytes spell which instruction (`Spells`), by one table of opcodes.
#![tactic(auto)]

/// The size of an operand: 8, 16 or 32 bits.
#[derive(Clone, Copy, PartialEq, Eq)]
pub enum Size {
    /// A byte, 8 bits.
    B,
    /// A half of a word, 16 bits.
    H,
    /// A word, 32 bits.
    W,
}

/// The segment whose base is added to an address. The others have the base 0.
#[derive(Clone, Copy, PartialEq, Eq)]
pub enum Seg {
    None,
    Fs,
    Gs,
}

/// The address `base + index * scale + disp`, modulo 2^32, with the base of a segment added.
/// Registers are 0 to 7 (eax, ecx, edx, ebx, esp, ebp, esi, edi), and esp is no index. The scale is
/// 1, 2, 4 or 8, and 1 where there is no index. (Intel SDM vol. 2, 2.1.5.)
#[derive(Clone, Copy, PartialEq, Eq)]
pub struct Mem {
    pub base: Option<u8>,
    pub index: Option<u8>,
    pub scale: u8,
    pub disp: u32,
    pub seg: Seg,
}

/// An operand: a register 0 to 7, memory, or a number taken to the operand's size without sign.
/// With 8 bits the registers 0 to 7 are al, cl, dl, bl, ah, ch, dh, bh.
#[derive(Clone, Copy, PartialEq, Eq)]
pub enum Operand {
    Reg(u8),
    Mem(Mem),
    Imm(u32),
}

/// A condition, 0 to 15: O, NO, B, AE, E, NE, BE, A, S, NS, P, NP, L, GE, LE, G.
/// (Intel SDM vol. 1, appendix B.)
#[derive(Clone, Copy, PartialEq, Eq)]
pub struct Cond(pub u8);

/// The operations of the opcodes 00 to 3D and 80 to 83, in the order of their digits.
#[derive(Clone, Copy, PartialEq, Eq)]
pub enum AluOp {
    Add,
    Or,
    Adc,
    Sbb,
    And,
    Sub,
    Xor,
    Cmp,
}

/// Rotations and shifts.
#[derive(Clone, Copy, PartialEq, Eq)]
pub enum ShiftOp {
    Rol,
    Ror,
    Shl,
    Shr,
    Sar,
}

/// What is done with a bit: test it, and then set, reset or complement it.
#[derive(Clone, Copy, PartialEq, Eq)]
pub enum BitOp {
    Bt,
    Bts,
    Btr,
    Btc,
}

/// The string instructions.
#[derive(Clone, Copy, PartialEq, Eq)]
pub enum StrOp {
    Movs,
    Cmps,
    Stos,
    Lods,
    Scas,
}

/// The repetition of a string instruction: none, while ECX lasts, and while also equal or not equal.
#[derive(Clone, Copy, PartialEq, Eq)]
pub enum Rep {
    No,
    Rep,
    Repe,
    Repne,
}

/// How far a shift goes: by 1, by a number (the processor takes its low five bits), or by CL.
#[derive(Clone, Copy, PartialEq, Eq)]
pub enum Count {
    One,
    Imm(u8),
    Cl,
}

/// What is done with the carry flag: CMC, CLC, STC.
#[derive(Clone, Copy, PartialEq, Eq)]
pub enum CarryOp {
    Flip,
    Clear,
    Put,
}

/// An instruction. Where there are two operands the first is the destination. A distance of a jump
/// or a call is counted from the next instruction, modulo 2^32. A plain `u8` is a register.
#[derive(Clone, Copy, PartialEq, Eq)]
pub enum Inst {
    Alu(AluOp, Size, Operand, Operand),
    Inc(Size, Operand),
    Dec(Size, Operand),
    /// PUSH of 32 bits.
    Push(Operand),
    /// POP of 32 bits.
    Pop(Operand),
    /// IMUL: the register becomes the operand times the number, taken to the size.
    Imul3(Size, u8, Operand, u32),
    /// A jump over a distance where the condition holds.
    Jcc(Cond, u32),
    Test(Size, Operand, Operand),
    Xchg(Size, Operand, Operand),
    Mov(Size, Operand, Operand),
    /// LEA: the register becomes the address, whose segment is `Seg::None`.
    Lea(Size, u8, Mem),
    Nop,
    /// CBW or CWDE, by the size of the result.
    Widen(Size),
    /// CWD or CDQ, by the size of the accumulator.
    Spread(Size),
    /// A string instruction. The segment is that of the ESI operand, and `Seg::None` on Stos and Scas.
    Str(StrOp, Size, Rep, Seg),
    Shift(ShiftOp, Size, Operand, Count),
    /// RET, which takes that many bytes off the stack.
    Ret(u16),
    Leave,
    /// A fault with that vector: INT3 is 3, UD2 is 6, HLT is 13.
    Trap(u32),
    Loop(u32),
    Jecxz(u32),
    Call(u32),
    Jmp(u32),
    Carry(CarryOp),
    Not(Size, Operand),
    Neg(Size, Operand),
    Mul(Size, Operand),
    /// IMUL of one operand.
    ImulWide(Size, Operand),
    Div(Size, Operand),
    Idiv(Size, Operand),
    /// A call of the address that the operand holds.
    CallTo(Operand),
    /// A jump to the address that the operand holds.
    JmpTo(Operand),
    Cmov(Cond, Size, u8, Operand),
    Set(Cond, Operand),
    Bit(BitOp, Size, Operand, Operand),
    /// SHLD (true) or SHRD (false): the operand is shifted, the register's bits come in.
    DShift(bool, Operand, u8, Count),
    /// IMUL: the register is multiplied by the operand.
    Imul2(Size, u8, Operand),
    /// MOVSX (true) or MOVZX (false), from the first size to the second.
    Movx(bool, Size, Size, u8, Operand),
    /// BSF (true) or BSR (false). The last field says that F3 stood before BSF, which is TZCNT on
    /// processors that have it.
    Scan(bool, Size, u8, Operand, bool),
    Bswap(u8),
}
