//! What of a range is reached, and the places that are named.

use crate::images::{ENTRY, image};
use elf_image::Range;
use flow_graph::{Cause, FlowFault, Found, Place, discover};
use graph_order::{Graph, NodeId};
use std::alloc::{AllocError, Global};
use std::test::Fail;

fn found(alloc: Global, code: &[u8], size: u32) -> Result<Result<Found, FlowFault>, Fail> {
    let m = image(alloc, code, 0, &[], 0)?;
    Ok(discover(alloc, &m, &Range::new(ENTRY, size)))
}

// EAX is compared with 2, a branch with the opcode leads past a jump through the table, and there EAX is cleared before the
// return.
fn found_by_table(
    alloc: Global,
    branch: u8,
    table: &[u32],
    flags: u32,
) -> Result<Result<Found, FlowFault>, Fail> {
    let code = [
        0x83, 0xf8, 2, branch, 7, 0xff, 0x24, 0x85, 0, 0x90, 4, 8, 0x31, 0xc0, 0xc3,
    ];
    let m = image(alloc, &code, 0, table, flags)?;
    Ok(discover(alloc, &m, &Range::new(ENTRY, 15)))
}

// The edges of a graph, in order.
fn edges(alloc: Global, graph: &Graph) -> Result<Vec<(u32, u32)>, AllocError> {
    let mut edges = Vec::new(alloc);
    for k in 0..graph.count() {
        for n in graph.succ(NodeId(k)) {
            edges.push((k, n.0))?;
        }
    }
    Ok(edges)
}

#[test]
fn discovers_in_order(rt: HostRuntime) -> Result<(), Fail> {
    let alloc = rt.alloc();
    let rows: [(&[u8], &[u32], &[(u32, u32)]); 8] = [
        // A move and a return.
        (&[0xb8, 5, 0, 0, 0, 0xc3], &[0, 5], &[(0, 1)]),
        // A jump out of the range.
        (&[0xe9, 0xfb, 0x0e, 0, 0], &[0], &[]),
        // A loop: the target of its branch comes before the next address.
        (
            &[
                0xb9, 3, 0, 0, 0, 0x85, 0xc9, 0x74, 3, 0x49, 0xeb, 0xf9, 0xc3,
            ],
            &[0, 5, 7, 12, 9, 10],
            &[(0, 1), (1, 2), (2, 3), (2, 4), (4, 5), (5, 1)],
        ),
        // A branch whose two successors are one address.
        (&[0x75, 0, 0xc3], &[0, 2], &[(0, 1), (0, 1)]),
        // A repeated string instruction.
        (&[0xf3, 0xa4, 0xc3], &[0, 2], &[(0, 0), (0, 1)]),
        // A jump to itself, and bytes that nothing reaches.
        (&[0xeb, 0xfe, 0xd9, 0xe8], &[0], &[(0, 0)]),
        // A jump through a bare absolute address.
        (&[0xff, 0x25, 0, 0x90, 4, 8], &[0], &[]),
        // A call of the entry.
        (&[0xe8, 0xfb, 0xff, 0xff, 0xff, 0xc3], &[0, 5], &[(0, 1)]),
    ];
    for (code, places, graph) in rows {
        let Ok(answer) = found(alloc, code, u32::try_from(code.len())?)? else {
            return Err(Fail::from(AllocError));
        };
        let mut wanted = Vec::new(alloc);
        for place in places {
            wanted.push(ENTRY.wrapping_add(*place))?;
        }
        assert_eq!(rt; answer.places.as_slice(), wanted.as_slice());
        assert!(rt; edges(alloc, &answer.graph)?.as_slice() == graph);
    }
    Ok(())
}

#[test]
fn names_the_place(rt: HostRuntime) -> Result<(), Fail> {
    let alloc = rt.alloc();
    let rows: [(&[u8], u32, u32, Cause, u8); 8] = [
        (&[0x90, 0xd9, 0xe8, 0xc3], 4, 1, Cause::Instruction, 1),
        (&[0xb8, 5, 0], 3, 0, Cause::Straddle, 2),
        (&[0xff, 0xe0], 2, 0, Cause::IndirectJump, 3),
        (&[0xe8, 0, 0, 0, 0, 0x58, 0xc3], 7, 0, Cause::CallInside, 4),
        (&[0xc3], 0, 0, Cause::RangeEmpty, 5),
        (&[0xc3], 65537, 0, Cause::RangeTooLarge, 6),
        (&[0xc3, 0xc3], 3, 2, Cause::RangeUnbacked, 7),
        // Of two causes the least, which is found last.
        (
            &[0x75, 4, 0xff, 0xe0, 0x90, 0x90, 0xd9, 0xe8],
            8,
            2,
            Cause::IndirectJump,
            3,
        ),
    ];
    for (code, size, at, cause, number) in rows {
        let at = ENTRY.wrapping_add(at);
        let Err(fault) = found(alloc, code, size)? else {
            return Err(Fail::from(AllocError));
        };
        assert!(rt; fault == FlowFault::Outside(Place { at, cause }));
        assert_eq!(rt; cause.number(), number);
    }
    Ok(())
}

#[test]
fn follows_a_table(rt: HostRuntime) -> Result<(), Fail> {
    let alloc = rt.alloc();
    let table = [ENTRY + 12, ENTRY + 14, ENTRY + 12];
    let rows: [(u8, &[u32], &[(u32, u32)]); 2] = [
        // Above: the default, and three entries.
        (0x77, &table, &[(0, 1), (0, 1), (0, 2), (0, 1), (1, 2)]),
        // Above or equal: the default, and two entries.
        (0x73, &table[..2], &[(0, 1), (0, 1), (0, 2), (1, 2)]),
    ];
    for (branch, table, graph) in rows {
        let Ok(answer) = found_by_table(alloc, branch, table, 4)? else {
            return Err(Fail::from(AllocError));
        };
        assert_eq!(rt;
            answer.places.as_slice(),
            [ENTRY, ENTRY + 12, ENTRY + 14].as_slice()
        );
        assert!(rt; edges(alloc, &answer.graph)?.as_slice() == graph);
    }
    Ok(())
}

#[test]
fn refuses_a_table(rt: HostRuntime) -> Result<(), Fail> {
    let alloc = rt.alloc();
    let table = [ENTRY + 12, ENTRY + 14, ENTRY + 12];
    // A table that can be written, and one that is too short.
    let rows: [(&[u32], u32); 2] = [(&table, 6), (&table[..2], 4)];
    for (table, flags) in rows {
        let Err(fault) = found_by_table(alloc, 0x77, table, flags)? else {
            return Err(Fail::from(AllocError));
        };
        let place = Place {
            at: ENTRY + 5,
            cause: Cause::IndirectJump,
        };
        assert!(rt; fault == FlowFault::Outside(place));
    }
    Ok(())
}
