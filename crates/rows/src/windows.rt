//! Windows, their bytes written out by hand from the opcode map.

use crate::images::{ENTRY, TABLE, image};
use elf_image::Range;
use jump_tables::{TableWindow, inst_at, window};
use std::alloc::Global;
use std::test::Fail;

// The words of the table.
const TARGETS: [u32; 3] = [ENTRY + 12, ENTRY + 14, ENTRY];

/// The default, the jump and the count of the window at the entry, whose table is at its place.
fn told(alloc: Global, code: &[u8], table_flags: u32) -> Result<Option<(u32, u32, u32)>, Fail> {
    let image = image(alloc, code, 0, &TARGETS, table_flags)?;
    let range = Range::new(ENTRY, u32::try_from(code.len())?);
    Ok(match window(&image, &range, ENTRY) {
        Some(w) if w.table == TABLE => Some((w.default, w.jump, w.count)),
        _ => None,
    })
}

#[test]
fn windows_are_found(rt: HostRuntime) -> Result<(), Fail> {
    let cases: [(&[u8], u32, Option<(u32, u32, u32)>); 8] = [
        // cmp eax, 2; ja +7; jmp [4 * eax + table]; xor eax, eax; ret
        (
            b"\x83\xf8\x02\x77\x07\xff\x24\x85\0\x90\x04\x08\x31\xc0\xc3",
            4,
            Some((ENTRY + 12, ENTRY + 5, 3)),
        ),
        // jae
        (
            b"\x83\xf8\x02\x73\x07\xff\x24\x85\0\x90\x04\x08\x31\xc0\xc3",
            4,
            Some((ENTRY + 12, ENTRY + 5, 2)),
        ),
        // jg
        (
            b"\x83\xf8\x02\x7f\x07\xff\x24\x85\0\x90\x04\x08\x31\xc0\xc3",
            4,
            None,
        ),
        // a table that can be written
        (
            b"\x83\xf8\x02\x77\x07\xff\x24\x85\0\x90\x04\x08\x31\xc0\xc3",
            6,
            None,
        ),
        // a table of which a word is missing
        (
            b"\x83\xf8\x03\x77\x07\xff\x24\x85\0\x90\x04\x08\x31\xc0\xc3",
            4,
            None,
        ),
        // cmp al, 2; jbe +1; ret; movzx eax, al; mov eax, [4 * eax + table]; jmp eax
        (
            b"\x3c\x02\x76\x01\xc3\x0f\xb6\xc0\x8b\x04\x85\0\x90\x04\x08\xff\xe0",
            4,
            Some((ENTRY + 4, ENTRY + 15, 3)),
        ),
        // cmp eax, 3; jb +1; ret; shl eax, 2; add eax, table; jmp [eax]
        (
            b"\x83\xf8\x03\x72\x01\xc3\xc1\xe0\x02\x05\0\x90\x04\x08\xff\x20",
            4,
            Some((ENTRY + 5, ENTRY + 14, 3)),
        ),
        // cmp eax, 2; ja +7; jmp [2 * eax + table]; ret
        (
            b"\x83\xf8\x02\x77\x07\xff\x24\x45\0\x90\x04\x08\xc3",
            4,
            None,
        ),
    ];
    for (code, table_flags, expected) in cases {
        assert_eq!(rt; told(rt.alloc(), code, table_flags)?, expected);
    }
    Ok(())
}

#[test]
fn entries_are_targets(rt: HostRuntime) -> Result<(), Fail> {
    let image = image(rt.alloc(), b"\xc3", 0, &TARGETS, 4)?;
    let w = TableWindow {
        default: ENTRY,
        table: TABLE,
        count: 3,
        jump: ENTRY,
        path: ENTRY,
    };
    assert_eq!(rt;
        [w.target(&image, 0), w.target(&image, 2)],
        [ENTRY + 12, ENTRY]
    );
    let range = Range::new(ENTRY, 1);
    assert!(rt; matches!(inst_at(&image, &range, ENTRY), Some((_, 1))));
    assert!(rt; inst_at(&image, &range, ENTRY + 1).is_none());
    Ok(())
}
