//! Spellings of instructions, read and written.

use x86_decode::{Decoded, decode};
use x86_encode::{Code, encode};
use x86_inst::{AluOp, BitOp, Cond, Count, Inst, Mem, Operand, Rep, Seg, ShiftOp, Size, StrOp};

const EAX: Operand = Operand::Reg(0);

#[test]
fn no_instruction(rt: HostRuntime) {
    assert!(rt; decode(&[]) == Decoded::Cut);
    assert!(rt; decode(&[0xB8, 0x05]) == Decoded::Cut);
    assert!(rt; decode(&[0xF0]) == Decoded::None);
    assert!(rt; decode(&[0x66, 0x66, 0x90]) == Decoded::None);
    assert!(rt; decode(&[0x8D, 0xC0]) == Decoded::None);
}

const fn based(base: u8, disp: u32) -> Operand {
    Operand::Mem(Mem {
        base: Some(base),
        index: None,
        scale: 1,
        disp,
        seg: Seg::None,
    })
}

// the bytes are those that GNU as 2.40 gives for the lines beside them, with --32
#[test]
fn some_instructions(rt: HostRuntime) {
    // add $5,%eax
    let add = Inst::Alu(AluOp::Add, Size::W, Operand::Reg(0), Operand::Imm(5));
    assert!(rt; decode(&[0x83, 0xC0, 0x05, 0x90]) == Decoded::Inst(add, 3));
    // pushl -4(%ecx)
    let push = Inst::Push(based(1, 0xFFFF_FFFC));
    assert!(rt; decode(&[0xFF, 0x71, 0xFC]) == Decoded::Inst(push, 3));
    // movl %gs:0x14,%eax
    let fixed = Mem {
        base: None,
        index: None,
        scale: 1,
        disp: 0x14,
        seg: Seg::Gs,
    };
    let load = Inst::Mov(Size::W, Operand::Reg(0), Operand::Mem(fixed));
    assert!(rt; decode(&[0x65, 0xA1, 0x14, 0, 0, 0]) == Decoded::Inst(load, 6));
    // lea 8(%eax,%ecx,4),%edx
    let sum = Mem {
        base: Some(0),
        index: Some(1),
        scale: 4,
        disp: 8,
        seg: Seg::None,
    };
    let lea = Inst::Lea(Size::W, 2, sum);
    assert!(rt; decode(&[0x8D, 0x54, 0x88, 0x08]) == Decoded::Inst(lea, 4));
    // movzbl 0x12345678(,%esi,2),%edi
    let scaled = Mem {
        base: None,
        index: Some(6),
        scale: 2,
        disp: 0x1234_5678,
        seg: Seg::None,
    };
    let wide = Inst::Movx(false, Size::B, Size::W, 7, Operand::Mem(scaled));
    assert!(rt;
        decode(&[0x0F, 0xB6, 0x3C, 0x75, 0x78, 0x56, 0x34, 0x12]) == Decoded::Inst(wide, 8)
    );
    // rep movsl
    let copy = Inst::Str(StrOp::Movs, Size::W, Rep::Rep, Seg::None);
    assert!(rt; decode(&[0xF3, 0xA5]) == Decoded::Inst(copy, 2));
    // shl $3,%cx
    let shift = Inst::Shift(ShiftOp::Shl, Size::H, Operand::Reg(1), Count::Imm(3));
    assert!(rt; decode(&[0x66, 0xC1, 0xE1, 0x03]) == Decoded::Inst(shift, 4));
    // sete %al
    let set = Inst::Set(Cond(4), Operand::Reg(0));
    assert!(rt; decode(&[0x0F, 0x94, 0xC0]) == Decoded::Inst(set, 3));
    // btsl $7,(%ebp)
    let bit = Inst::Bit(BitOp::Bts, Size::W, based(5, 0), Operand::Imm(7));
    assert!(rt; decode(&[0x0F, 0xBA, 0x6D, 0x00, 0x07]) == Decoded::Inst(bit, 5));
    // cmpw $-2,(%esp)
    let cmp = Inst::Alu(AluOp::Cmp, Size::H, based(4, 0), Operand::Imm(0xFFFE));
    assert!(rt; decode(&[0x66, 0x83, 0x3C, 0x24, 0xFE]) == Decoded::Inst(cmp, 5));
    // imul $-3,%ebx,%ecx
    let imul = Inst::Imul3(Size::W, 1, Operand::Reg(3), 0xFFFF_FFFD);
    assert!(rt; decode(&[0x6B, 0xCB, 0xFD]) == Decoded::Inst(imul, 3));
}

const fn add_to_eax(n: u32) -> Inst {
    Inst::Alu(AluOp::Add, Size::W, EAX, Operand::Imm(n))
}

fn is(code: Option<Code>, bytes: &[u8]) -> bool {
    match code {
        None => false,
        Some(code) => code.len <= 15 && code.as_slice() == bytes,
    }
}

#[test]
fn shortest_spellings(rt: HostRuntime) {
    assert!(rt; is(encode(&add_to_eax(5)), &[0x83, 0xC0, 0x05]));
    assert!(rt; is(encode(&add_to_eax(0x80)), &[0x05, 0x80, 0, 0, 0]));
    assert!(rt; is(encode(&Inst::Xchg(Size::W, EAX, Operand::Reg(1))), &[0x91]));
    // movl %gs:0x14,%eax and lea 8(%eax,%ecx,4),%edx and rep movsl, as GNU as 2.40 has them
    let fixed = Mem {
        base: None,
        index: None,
        scale: 1,
        disp: 0x14,
        seg: Seg::Gs,
    };
    let load = Inst::Mov(Size::W, EAX, Operand::Mem(fixed));
    assert!(rt; is(encode(&load), &[0x65, 0xA1, 0x14, 0, 0, 0]));
    let sum = Mem {
        base: Some(0),
        index: Some(1),
        scale: 4,
        disp: 8,
        seg: Seg::None,
    };
    assert!(rt;
        is(
            encode(&Inst::Lea(Size::W, 2, sum)),
            &[0x8D, 0x54, 0x88, 0x08]
        )
    );
    let copy = Inst::Str(StrOp::Movs, Size::W, Rep::Rep, Seg::None);
    assert!(rt; is(encode(&copy), &[0xF3, 0xA5]));
    assert!(rt; is(encode(&Inst::Set(Cond(4), EAX)), &[0x0F, 0x94, 0xC0]));
}

#[test]
fn no_spelling(rt: HostRuntime) {
    let at = Operand::Mem(Mem {
        base: Some(1),
        index: None,
        scale: 1,
        disp: 0,
        seg: Seg::None,
    });
    assert!(rt; encode(&Inst::Mov(Size::W, at, at)).is_none());
    assert!(rt; encode(&Inst::Bswap(8)).is_none());
    assert!(rt; encode(&Inst::Jcc(Cond(16), 0)).is_none());
    let scaled = Mem {
        base: None,
        index: Some(1),
        scale: 3,
        disp: 0,
        seg: Seg::None,
    };
    assert!(rt; encode(&Inst::Lea(Size::W, 0, scaled)).is_none());
}
