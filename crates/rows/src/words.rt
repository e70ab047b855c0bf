//! Words, memories and registers.

use dream_words::{
    Memory, Regs, Width, borrow, carry_add, div_s, div_u, highest_one, less_signed, low,
    lowest_one, mul_hi_s, mul_hi_u, over_add, over_sub, parity, shifted_signed, sign, sx,
};
use std::test::Fail;

#[test]
fn a_word_wraps_around(rt: HostRuntime) -> Result<(), Fail> {
    let mut memory = Memory::new(rt.alloc());
    memory.store(0xffff_ffff, Width::W, 0x4433_2211)?;
    memory.store(2, Width::H, 0xabcd_6655)?;
    memory.store(1, Width::B, 0x100)?;
    for (a, want) in [
        (0xffff_fffe, 0),
        (0xffff_ffff, 0x11),
        (0, 0x22),
        (1, 0),
        (2, 0x55),
        (3, 0x66),
        (4, 0),
    ] {
        assert_eq!(rt; memory.byte(a), want, "at {a}");
    }
    for (a, width, want) in [
        (0xffff_ffff, Width::W, 0x5500_2211),
        (0xffff_ffff, Width::H, 0x2211),
        (0xffff_ffff, Width::B, 0x11),
        (2, Width::W, 0x6655),
    ] {
        assert_eq!(rt; memory.load(a, width), want, "at {a}");
    }
    Ok(())
}

#[test]
fn memories_differ_where_their_bytes_do(rt: HostRuntime) -> Result<(), Fail> {
    let mut memory = Memory::new(rt.alloc());
    memory.place(0xffff_fffd, &[1, 0, 3])?;
    assert_eq!(rt; memory.load(0xffff_fffc, Width::W), 0x0300_0100);
    assert_eq!(rt; memory.differs(&Memory::new(rt.alloc())), 2);

    let mut copied = memory.copy()?;
    assert_eq!(rt; memory.differs(&copied), 0);
    copied.place(0, &[0, 7, 0, 9])?;
    copied.store(0xffff_fffd, Width::B, 0)?;
    assert_eq!(rt; memory.differs(&copied), 3);
    assert_eq!(rt; copied.differs(&memory), 3);
    Ok(())
}

#[test]
fn words_of_a_size(rt: HostRuntime) {
    assert_eq!(rt;
        (
            low::<8>(0x1234_5678),
            low::<16>(0x1234_5678),
            low::<32>(0x1234_5678)
        ),
        (0x78, 0x5678, 0x1234_5678)
    );
    assert!(rt; sign::<8>(0x80) && !sign::<16>(0x80) && sign::<32>(0x8000_0000));
    assert_eq!(rt;
        (sx::<8>(0x1ff), sx::<16>(0x7fff), sx::<32>(0x8000_0000)),
        (0xffff_ffff, 0x7fff, 0x8000_0000)
    );
    assert!(rt;
        carry_add::<8>(0xff, 0, true)
            && carry_add::<32>(0xffff_ffff, 1, false)
            && !carry_add::<16>(0xff, 1, false)
    );
    assert!(rt;
        over_add::<8>(0x7f, 0, true)
            && !over_add::<16>(0xffff, 1, false)
            && over_add::<32>(0x8000_0000, 0x8000_0000, false)
    );
    assert!(rt;
        borrow::<16>(0, 0, true) && !borrow::<8>(0, 0x100, false) && borrow::<32>(0, 1, false)
    );
    assert!(rt;
        over_sub::<8>(0x80, 1, false)
            && !over_sub::<16>(0x80, 1, false)
            && over_sub::<32>(0x7fff_ffff, 0xffff_ffff, false)
    );
    assert!(rt; parity(0x103) && !parity(0x101) && parity(0));
}

#[test]
fn products_and_quotients(rt: HostRuntime) {
    assert_eq!(rt;
        (
            mul_hi_u::<8>(0xff, 0xff),
            mul_hi_u::<32>(0xffff_ffff, 0xffff_ffff)
        ),
        (0xfe, 0xffff_fffe)
    );
    assert_eq!(rt;
        (
            mul_hi_s::<8>(0x80, 0x80),
            mul_hi_s::<16>(0xffff, 1),
            mul_hi_s::<32>(0xffff_ffff, 0xffff_ffff)
        ),
        (0x40, 0xffff, 0)
    );
    assert_eq!(rt; div_u::<8>(0x12, 0x34, 0x56), Some((54, 16)));
    assert_eq!(rt;
        div_u::<32>(0xffff_fffe, 0xffff_ffff, 0xffff_ffff),
        Some((0xffff_ffff, 0xffff_fffe))
    );
    assert_eq!(rt;
        (div_u::<32>(1, 0, 1), div_u::<16>(0, 1, 0x1_0000)),
        (None, None)
    );
    assert_eq!(rt; div_s::<16>(0xffff, 0xfff9, 2), Some((0xfffd, 0xffff)));
    assert_eq!(rt; div_s::<32>(0, 7, 0xffff_fffe), Some((0xffff_fffd, 1)));
    assert_eq!(rt;
        (
            div_s::<32>(0xffff_ffff, 0x8000_0000, 0xffff_ffff),
            div_s::<8>(0xff, 0x80, 0xff)
        ),
        (None, None)
    );
}

#[test]
fn bits_of_a_word(rt: HostRuntime) {
    for (v, lowest, highest) in [
        (0, 31, 0),
        (1, 0, 0),
        (6, 1, 2),
        (0xff00, 8, 15),
        (0x8000_0000, 31, 31),
    ] {
        assert_eq!(rt;
            (lowest_one(v), highest_one(v)),
            (lowest, highest),
            "of {v}"
        );
    }
    for (v, count, want) in [
        (0x8000_0000, 31, 0xffff_ffff),
        (0x8000_0000, 200, 0xffff_ffff),
        (0x4000_0000, 4, 0x400_0000),
        (0xffff_fff0, 2, 0xffff_fffc),
        (0x7fff_ffff, 33, 0),
    ] {
        assert_eq!(rt; shifted_signed(v, count), want, "of {v} by {count}");
    }
    assert!(rt;
        less_signed(0xffff_ffff, 0) && !less_signed(0x7fff_ffff, 0x8000_0000) && !less_signed(5, 5)
    );
}

#[test]
fn registers_by_number(rt: HostRuntime) {
    let mut regs = Regs {
        eax: 0,
        ecx: 0,
        edx: 0,
        ebx: 0,
        esp: 0,
        ebp: 0,
        esi: 0,
        edi: 0,
    };
    for n in 0..9 {
        regs.set(n, 10 + u32::from(n));
    }
    assert_eq!(rt;
        regs,
        Regs {
            eax: 10,
            ecx: 11,
            edx: 12,
            ebx: 13,
            esp: 14,
            ebp: 15,
            esi: 16,
            edi: 17
        }
    );
    for (n, want) in [
        (0, 10),
        (1, 11),
        (2, 12),
        (3, 13),
        (4, 14),
        (5, 15),
        (6, 16),
        (7, 17),
        (8, 0),
    ] {
        assert_eq!(rt; regs.get(n), want, "register {n}");
    }
}
