//! Values of words, checks of flows, and what instructions are lifted to.

use c_words::name;
use dream_words::{Name, Regs};
use graph_order::NodeId;
use lift::lift;
use lift_alu::{lift_alu, lift_cond};
use micro_ir::{Bin, Block, End, Env, Expr, Flow, eval};
use sqlite_items::{Boxed, Items};
use std::alloc::{AllocError, Global};
use std::test::Fail;
use x86_inst::{AluOp, Cond, Inst};

fn env(alloc: Global) -> Result<Env, AllocError> {
    Ok(Env {
        regs: Regs {
            eax: 7,
            ecx: 0,
            edx: 0,
            ebx: 0,
            esp: 0xbfff_0000,
            ebp: 0,
            esi: 0,
            edi: 0xffff_ffff,
        },
        flags: [1, 0, 0, 0, 3],
        fs: 0x1000,
        gs: 0x2000,
        temps: Items::from_vec(Vec::from_array(alloc, [5, 6])?),
    })
}

#[test]
fn names(rt: HostRuntime) -> Result<(), Fail> {
    let env = env(rt.alloc())?;
    for (name, want) in [
        (Name::Reg(0), 7),
        (Name::Reg(7), 0xffff_ffff),
        (Name::Reg(8), 0),
        (Name::Flag(0), 1),
        (Name::Flag(4), 3),
        (Name::Flag(5), 0),
        (Name::Fs, 0x1000),
        (Name::Gs, 0x2000),
        (Name::T(1), 6),
        (Name::T(2), 0),
        (Name::B(0), 0),
        (Name::S(0), 0),
    ] {
        assert_eq!(rt; eval(&Expr::Name(name), &env), Some(want));
    }
    Ok(())
}

/// The value of `0xffffffff >> count`.
fn shifted(alloc: Global, count: u32) -> Result<Option<u32>, AllocError> {
    let ones = Boxed::new(alloc, Expr::Name(Name::Reg(7)))?;
    let count = Boxed::new(alloc, Expr::Num(count))?;
    Ok(eval(&Expr::Bin(Bin::Shr, ones, count), &env(alloc)?))
}

#[test]
fn shifts(rt: HostRuntime) -> Result<(), Fail> {
    for (count, want) in [(0, Some(0xffff_ffff)), (31, Some(1)), (32, None)] {
        assert_eq!(rt; shifted(rt.alloc(), count)?, want);
    }
    Ok(())
}

fn block(alloc: Global, to: u32) -> Block {
    Block {
        at: 0x1000,
        stmts: Items::new(alloc),
        end: End::Go(NodeId(to)),
    }
}

/// The bad block of a flow whose two blocks go to these nodes.
fn bad_block(
    alloc: Global,
    entry: u32,
    first: u32,
    second: u32,
) -> Result<Option<u32>, AllocError> {
    let blocks = Vec::from_array(alloc, [block(alloc, first), block(alloc, second)])?;
    let flow = Flow {
        entry: NodeId(entry),
        blocks: Items::from_vec(blocks),
    };
    match flow.check() {
        Ok(()) => Ok(None),
        Err(bad) => Ok(Some(bad.node.0)),
    }
}

#[test]
fn checks(rt: HostRuntime) -> Result<(), Fail> {
    for (entry, first, second, want) in [
        (1, 1, 0, None),
        (0, 1, 2, Some(1)),
        (0, 2, 2, Some(0)),
        (2, 1, 2, Some(0)),
    ] {
        assert_eq!(rt; bad_block(rt.alloc(), entry, first, second)?, want);
    }
    Ok(())
}

#[test]
fn a_difference_of_bytes_with_borrow(rt: HostRuntime) {
    let words = lift_alu::<8>(
        rt.alloc(),
        AluOp::Sbb,
        name(Name::Reg(0)),
        name(Name::Reg(1)),
    );
    assert!(rt; words.is_ok());
}

#[test]
fn a_condition_of_three_flags(rt: HostRuntime) {
    assert!(rt; lift_cond(rt.alloc(), Cond(14)).is_ok());
}

#[test]
fn a_return_has_one_block(rt: HostRuntime) -> Result<(), Fail> {
    let blocks = lift(rt.alloc(), &Inst::Ret(0), 0x0804_8100, 0x0804_8101)?;
    assert_eq!(rt; blocks.len(), 1);
    Ok(())
}
