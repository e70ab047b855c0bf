//! Steps of instructions.

use dream_words::{Bit, Flags, Regs, Width};
use x86_inst::{AluOp, Count, Inst, Operand, Rep, Seg, ShiftOp, Size, StrOp};
use x86_model::{Access, Effect, Go, Reads, Stored, apply, wants};

const EAX: Operand = Operand::Reg(0);

fn regs(eax: u32, ecx: u32) -> Regs {
    Regs {
        eax,
        ecx,
        edx: 2,
        ebx: 3,
        esp: 0x1000,
        ebp: 5,
        esi: 0xffff_fffc,
        edi: 0x700,
    }
}

const fn flags(c: Bit, o: Bit) -> Flags {
    Flags {
        c,
        p: Bit::Zero,
        z: Bit::Zero,
        s: Bit::One,
        o,
    }
}

fn step(i: &Inst, r: &Regs, f: &Flags) -> Effect {
    apply(i, r, f, 0, 0, 0, 0, 0x2000)
}

#[test]
fn inc_keeps_the_carry(rt: HostRuntime) {
    let e = step(
        &Inst::Inc(Size::W, EAX),
        &regs(0xffff_ffff, 1),
        &flags(Bit::One, Bit::One),
    );
    assert_eq!(rt; e.regs, regs(0, 1));
    assert_eq!(rt;
        e.flags,
        Flags {
            c: Bit::One,
            p: Bit::One,
            z: Bit::One,
            s: Bit::Zero,
            o: Bit::Zero
        }
    );
    assert_eq!(rt; (e.store, e.go), (None, Go::Next));
}

#[test]
fn adc_strays_without_a_carry(rt: HostRuntime) {
    let adc = Inst::Alu(AluOp::Adc, Size::W, EAX, EAX);
    let r = regs(7, 1);
    assert_eq!(rt;
        step(&adc, &r, &flags(Bit::Undefined, Bit::Zero)).go,
        Go::Stray
    );
    let e = step(&adc, &r, &flags(Bit::One, Bit::Undefined));
    assert_eq!(rt; (e.regs, e.go), (regs(15, 1), Go::Next));
}

#[test]
fn a_count_of_32_is_0(rt: HostRuntime) {
    let r = regs(0x8000_0001, 32);
    let f = flags(Bit::One, Bit::Undefined);
    let e = step(&Inst::Shift(ShiftOp::Shl, Size::W, EAX, Count::Cl), &r, &f);
    assert_eq!(rt; (e.regs, e.flags, e.go), (r, f, Go::Next));
}

#[test]
fn a_jump_goes_from_the_next_instruction(rt: HostRuntime) {
    let r = regs(0, 1);
    let f = flags(Bit::One, Bit::Zero);
    assert_eq!(rt; step(&Inst::Jmp(0xffff_fff0), &r, &f).go, Go::To(0x1ff0));
    let e = step(&Inst::Call(0x10), &r, &f);
    assert_eq!(rt; e.go, Go::CallTo(0x2010));
    assert_eq!(rt;
        e.store,
        Some(Stored {
            at: 0xffc,
            width: Width::W,
            value: 0x2000
        })
    );
}

#[test]
fn cmps_reads_the_source_first(rt: HostRuntime) {
    let cmps = Inst::Str(StrOp::Cmps, Size::H, Rep::Repe, Seg::Fs);
    assert_eq!(rt;
        wants(&cmps, &regs(0, 1), 0x10, 0x20),
        Reads {
            first: Some(Access {
                at: 0xc,
                width: Width::H
            }),
            second: Some(Access {
                at: 0x700,
                width: Width::H
            }),
        }
    );
    assert_eq!(rt;
        wants(&cmps, &regs(0, 0), 0x10, 0x20),
        Reads {
            first: None,
            second: None
        }
    );
}
