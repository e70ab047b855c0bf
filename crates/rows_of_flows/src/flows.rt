//! The flow of what is discovered of code.

use elf_image::{Image, Range};
use flow_graph::discover;
use micro_ir::{Block, End, Flow};
use range_flow::flow_of;
use row_files::elf;
use std::alloc::{AllocError, Global};
use std::test::Fail;

const BASE: u32 = 0x0804_8100;

fn image(alloc: Global, code: &[u8]) -> Result<Image, Fail> {
    let bytes = elf(alloc, code)?;
    match Image::read(alloc, &bytes) {
        Ok(m) => Ok(m),
        Err(_) => Err(Fail::from(AllocError)),
    }
}

fn flow(alloc: Global, code: &[u8]) -> Result<Flow, Fail> {
    let m = image(alloc, code)?;
    let r = Range::new(BASE, u32::try_from(code.len())?);
    match discover(alloc, &m, &r) {
        Ok(found) => Ok(flow_of(alloc, &m, &r, &found)?),
        Err(_) => Err(Fail::from(AllocError)),
    }
}

// Where a block stands, and which nodes its end names.
fn shape(block: &Block) -> (u32, Option<u32>, Option<u32>) {
    let at = block.at.wrapping_sub(BASE);
    match &block.end {
        End::Go(a) => (at, Some(a.0), None),
        End::Branch(_, a, b) => (at, Some(a.0), Some(b.0)),
        End::Switch(_, _) | End::Return | End::Leave(_) => (at, None, None),
    }
}

#[test]
fn joins_the_blocks(rt: HostRuntime) -> Result<(), Fail> {
    let alloc = rt.alloc();
    // A test, a branch to a jump that leaves, and a return.
    let code = [0x85, 0xc0, 0x74, 2, 0x40, 0xc3, 0xe9, 0xf5, 0x0f, 0, 0];
    let flow = flow(alloc, &code)?;
    let wanted = [
        (0, Some(1), None),
        (2, Some(2), Some(3)),
        (6, Some(5), None),
        (4, Some(4), None),
        (5, None, None),
        (0x1000, None, None),
    ];
    assert_eq!(rt; flow.entry.0, 0);
    assert_eq!(rt; flow.blocks.len(), wanted.len());
    for (block, row) in flow.blocks.as_slice().iter().zip(wanted) {
        assert!(rt; shape(block) == row);
    }
    Ok(())
}
