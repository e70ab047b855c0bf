//! What functions and texts are answered: the C, the header, the line of a drill.

use crate::calls::{Zeros, call, decompile, files, sink, tidy};
use dream_outside::MemSink;
use dream_top::Status;
use drill_lines::drill_line;
use elf_image::Range;
use generators::make_drill;
use row_files::{MOVE, elf, elf_at, elf_with_main};
use std::test::Fail;

// Its text, where it stands at 0x08048100.
const MOVE_TEXT: &str =
    "#include \"dream386.h\"\n\nvoid f_08048100(void)\n{\n  eax = 0x5u;\n  esp = (esp + 0x4u);\n  return;\n}\n";

#[test]
fn answers_with_ample_memory(rt: HostRuntime) -> Result<(), Fail> {
    let alloc = rt.alloc();
    let ran = decompile(alloc, elf(alloc, &MOVE)?, "0x08048100+6")?;
    assert!(rt; ran.status == Status::Done);
    assert_eq!(rt; ran.status.code(), 0);
    assert_eq!(rt; ran.out.bytes().len(), 95);
    assert_eq!(rt; ran.out.bytes(), MOVE_TEXT.as_bytes());
    assert_eq!(rt; ran.notes.bytes().len(), 0);
    Ok(())
}

#[test]
fn finds_functions_by_name(rt: HostRuntime) -> Result<(), Fail> {
    let alloc = rt.alloc();
    let ran = decompile(alloc, elf_with_main(alloc)?, "main")?;
    assert!(rt; ran.status == Status::Done);
    assert_eq!(rt; ran.out.bytes(), MOVE_TEXT.as_bytes());
    assert_eq!(rt; ran.notes.bytes().len(), 0);
    let listed = elf_symbols::functions(alloc, &elf_with_main(alloc)?)
        .map_err(|_| "no list")?
        .list;
    assert_eq!(rt; listed.len(), 1);
    let main = listed.first().ok_or("no function")?;
    assert_eq!(rt; main.name.as_slice(), b"main".as_slice());
    assert!(rt; main.range == Range::new(0x0804_8100, 6));
    Ok(())
}

#[test]
fn prints_straight_lines(rt: HostRuntime) -> Result<(), Fail> {
    let alloc = rt.alloc();
    let cases: [(&[u8], u32, &str, &str); 4] = [
        // A move of registers.
        (
            &[0x89, 0xc8, 0xc3],
            0x0804_8000,
            "0x08048100+3",
            "#include \"dream386.h\"\n\nvoid f_08048100(void)\n{\n  eax = ecx;\n  esp = (esp + 0x4u);\n  return;\n}\n",
        ),
        // A jump out of the range.
        (
            &[0xe9, 0xfb, 0x0e, 0, 0],
            0x0804_8000,
            "0x08048100+5",
            "#include \"dream386.h\"\n\nvoid f_08048100(void)\n{\n  ext(0x8049000u);\n  return;\n}\n",
        ),
        // Code that leaves the range.
        (
            &MOVE[..5],
            0x0804_8000,
            "0x8048100+00000005",
            "#include \"dream386.h\"\n\nvoid f_08048100(void)\n{\n  eax = 0x5u;\n  ext(0x8048105u);\n  return;\n}\n",
        ),
        // Code up to the last address.
        (
            &MOVE,
            0xffff_fefa,
            "0xFFFFfffa+6",
            "#include \"dream386.h\"\n\nvoid f_fffffffa(void)\n{\n  eax = 0x5u;\n  esp = (esp + 0x4u);\n  return;\n}\n",
        ),
    ];
    for (code, base, func, text) in cases {
        let ran = decompile(alloc, elf_at(alloc, base, code, false)?, func)?;
        assert!(rt; ran.status == Status::Done, "{func}");
        assert_eq!(rt; ran.out.bytes(), text.as_bytes(), "{func}");
        assert_eq!(rt; ran.notes.bytes().len(), 0, "{func}");
    }
    Ok(())
}

// Functions by their code, and what doesn't stand in their texts: flags that nothing reads, locals and sums that nobody needs.
#[test]
fn leaves_out_what_nothing_reads(rt: HostRuntime) -> Result<(), Fail> {
    let alloc = rt.alloc();
    let cases: [(&[u8], &str, &str); 6] = [
        // A sum of registers.
        (&[0x89, 0xc8, 0x01, 0xd0, 0xc3], "0x08048100+5", "cf = "),
        (&[0x89, 0xc8, 0x01, 0xd0, 0xc3], "0x08048100+5", "zf = "),
        (&[0x89, 0xc8, 0x01, 0xd0, 0xc3], "0x08048100+5", "uint32_t"),
        // A sum with 0.
        (&[0x83, 0xc0, 0x00, 0xc3], "0x08048100+4", "+ 0x0u"),
        // A branch on the sign of a word reads no parity, and a negation that nothing asks for sets nothing.
        (
            &[
                0x8b, 0x44, 0x24, 0x04, 0x85, 0xc0, 0x79, 0x02, 0xf7, 0xd8, 0xc3,
            ],
            "0x08048100+b",
            "pf = ",
        ),
        (
            &[
                0x8b, 0x44, 0x24, 0x04, 0x85, 0xc0, 0x79, 0x02, 0xf7, 0xd8, 0xc3,
            ],
            "0x08048100+b",
            "of = ",
        ),
    ];
    for (code, func, absent) in cases {
        let ran = decompile(alloc, elf(alloc, code)?, func)?;
        assert!(rt; ran.status == Status::Done, "{func}");
        assert_eq!(rt; count(ran.out.bytes(), absent)?, 0, "{absent}");
    }
    Ok(())
}

// How often a word stands in a text.
fn count(text: &[u8], word: &str) -> Result<usize, Fail> {
    Ok(std::str::from_utf8(text)?.matches(word).count())
}

// An operation on al or eax and bl or ebx, a jump over the next instruction by a condition, and the two ways in which the text
// may say the condition: as the branch does, or turned round. It stands in the test: there is no flag, and no local.
#[test]
fn prints_comparisons(rt: HostRuntime) -> Result<(), Fail> {
    let alloc = rt.alloc();
    let cases: [([u8; 2], u8, &str, &str); 11] = [
        ([0x39, 0xd8], 0x74, "(eax == ebx)", "(eax != ebx)"),
        ([0x39, 0xd8], 0x72, "(eax < ebx)", "(ebx <= eax)"),
        ([0x39, 0xd8], 0x76, "(eax <= ebx)", "(ebx < eax)"),
        (
            [0x39, 0xd8],
            0x7c,
            "(lts(eax, ebx) != 0x0u)",
            "(lts(eax, ebx) == 0x0u)",
        ),
        (
            [0x39, 0xd8],
            0x7e,
            "(lts(ebx, eax) == 0x0u)",
            "(lts(ebx, eax) != 0x0u)",
        ),
        (
            [0x39, 0xd8],
            0x78,
            "(lts((eax - ebx), 0x0u) != 0x0u)",
            "(lts((eax - ebx), 0x0u) == 0x0u)",
        ),
        (
            [0x38, 0xd8],
            0x72,
            "((eax & 0xffu) < (ebx & 0xffu))",
            "((ebx & 0xffu) <= (eax & 0xffu))",
        ),
        (
            [0x38, 0xd8],
            0x7c,
            "(lts(sx1(eax), sx1(ebx)) != 0x0u)",
            "(lts(sx1(eax), sx1(ebx)) == 0x0u)",
        ),
        ([0x85, 0xc0], 0x74, "(eax == 0x0u)", "(eax != 0x0u)"),
        (
            [0x85, 0xc0],
            0x7e,
            "(lts(0x0u, eax) == 0x0u)",
            "(lts(0x0u, eax) != 0x0u)",
        ),
        (
            [0x85, 0xdb],
            0x78,
            "(lts(ebx, 0x0u) != 0x0u)",
            "(lts(ebx, 0x0u) == 0x0u)",
        ),
    ];
    for ([op, regs], jump, first, second) in cases {
        let code = [op, regs, jump, 1, 0x40, 0xc3];
        let ran = decompile(alloc, elf(alloc, &code)?, "0x08048100+6")?;
        assert!(rt; ran.status == Status::Done, "{first}");
        let text = ran.out.bytes();
        let found = count(text, first)?.saturating_add(count(text, second)?);
        assert_eq!(rt; found, 1, "{first}");
        for other in ["zf", "cf", "sf", "of", "uint32_t"] {
            assert_eq!(rt; count(text, other)?, 0, "{other} of {first}");
        }
    }
    Ok(())
}

// Functions by their code: how many loops, selectors and tests their structured texts have. The plain text is one loop round one
// switch.
#[test]
fn decompiles_in_two_forms(rt: HostRuntime) -> Result<(), Fail> {
    let alloc = rt.alloc();
    let cases: [(&[u8], &str, usize, usize, Option<usize>); 9] = [
        // Straight lines: sums of registers, a call to the entry, a jump through a bare address, a return past a pushed word.
        (
            &[0x89, 0xc8, 0x01, 0xd0, 0xc3],
            "0x08048100+5",
            0,
            0,
            Some(0),
        ),
        (
            &[0xe8, 0xfb, 0xff, 0xff, 0xff, 0xc3],
            "0x08048100+6",
            0,
            0,
            Some(0),
        ),
        (
            &[0xff, 0x25, 0x0c, 0xa0, 0x04, 0x08],
            "0x08048100+6",
            0,
            0,
            Some(0),
        ),
        (&[0x50, 0xc3], "0x08048100+2", 0, 0, Some(0)),
        // A loop of additions, an empty loop, a branch, a repeated string instruction, and a cycle that is entered twice.
        (
            &[
                0x31, 0xc0, 0x8b, 0x4c, 0x24, 0x04, 0x01, 0xc8, 0x49, 0x75, 0xfb, 0xc3,
            ],
            "0x08048100+c",
            1,
            0,
            None,
        ),
        (&[0xeb, 0xfe], "0x08048100+2", 1, 0, Some(0)),
        (
            &[
                0x8b, 0x44, 0x24, 0x04, 0x85, 0xc0, 0x79, 0x02, 0xf7, 0xd8, 0xc3,
            ],
            "0x08048100+b",
            0,
            0,
            Some(1),
        ),
        (&[0xf3, 0xab, 0xc3], "0x08048100+3", 1, 0, None),
        (
            &[0x85, 0xc0, 0x74, 0x01, 0x48, 0x49, 0x75, 0xfc, 0xc3],
            "0x08048100+9",
            1,
            1,
            None,
        ),
    ];
    for (code, func, loops, selectors, tests) in cases {
        let ran = decompile(alloc, elf(alloc, code)?, func)?;
        assert!(rt; ran.status == Status::Done, "{func}");
        assert_eq!(rt; count(ran.out.bytes(), "while (")?, loops, "{func}");
        assert_eq!(rt; count(ran.out.bytes(), "uint32_t s")?, selectors, "{func}");
        assert_eq!(rt; count(ran.out.bytes(), "switch (s0)")?, 0, "{func}");
        if let Some(tests) = tests {
            assert_eq!(rt; count(ran.out.bytes(), "if (")?, tests, "{func}");
        }
        assert_eq!(rt; ran.notes.bytes().len(), 0, "{func}");
        let mut files = files(alloc, elf(alloc, code)?, Vec::new(alloc))?;
        let ran = call(alloc, &mut files, &["plain", "a", func], sink(alloc)?)?;
        assert!(rt; ran.status == Status::Done, "{func}");
        assert_eq!(rt; count(ran.out.bytes(), "while (1)")?, 1, "{func}");
        assert_eq!(rt; count(ran.out.bytes(), "switch (s0)")?, 1, "{func}");
    }
    Ok(())
}

// Of 500 functions 63 are a cycle that is entered twice, and 54 are nests of two loops or more, which are one component with
// as many heads: each of these has a selector.
#[test]
fn tells_of_drills(rt: HostRuntime) -> Result<(), Fail> {
    let alloc = rt.alloc();
    let mut files = files(alloc, elf(alloc, &MOVE)?, Vec::new(alloc))?;
    let ran = call(alloc, &mut files, &["drill", "500"], sink(alloc)?)?;
    assert!(rt; ran.status == Status::Done);
    assert_eq!(rt;
        ran.out.bytes(),
        b"functions=500 bytes=10060 accepted=500 components=188 selectors=117 ext=62 stores=124\n".as_slice()
    );
    assert_eq!(rt; ran.notes.bytes().len(), 0);
    assert_eq!(rt; make_drill(alloc, 500)?.len(), 10_888);
    Ok(())
}

// Every blank and line end after the first line is doubled, and a text that is no longer one of the profile.
#[test]
fn tidies_texts(rt: HostRuntime) -> Result<(), Fail> {
    let alloc = rt.alloc();
    let mut doubled = Vec::from_slice(alloc, &MOVE_TEXT.as_bytes()[..22])?;
    for &byte in &MOVE_TEXT.as_bytes()[22..] {
        doubled.push(byte)?;
        if byte == b' ' || byte == b'\n' {
            doubled.push(byte)?;
        }
    }
    let ran = tidy(alloc, &doubled)?;
    assert!(rt; ran.status == Status::Done);
    assert_eq!(rt; ran.out.bytes().len(), 95);
    assert_eq!(rt; ran.out.bytes(), MOVE_TEXT.as_bytes());
    assert_eq!(rt; ran.notes.bytes().len(), 0);
    let text = b"#include \"dream386.h\"\n\nvoid f_08048100(void)\n{\n  goto x;\n}\n";
    let ran = tidy(alloc, text.as_slice())?;
    assert!(rt; ran.status == Status::NotProfile(49));
    assert_eq!(rt; ran.status.code(), 9);
    assert_eq!(rt;
        ran.notes.bytes(),
        b"dream: not a profile text at 49\n".as_slice()
    );
    assert_eq!(rt; ran.out.bytes().len(), 0);
    Ok(())
}

// A path that holds nothing, a file that is longer than the limit and no text, and an output that stops.
#[test]
fn tidies_in_the_order_of_refusals(rt: HostRuntime) -> Result<(), Fail> {
    let alloc = rt.alloc();
    let text = Vec::from_slice(alloc, MOVE_TEXT.as_bytes())?;
    let mut files = files(alloc, text, Vec::new(alloc))?;
    let ran = call(alloc, &mut files, &["tidy", "b"], sink(alloc)?)?;
    assert!(rt; ran.status == Status::ReadFault);
    let narrow = MemSink::new(alloc, 67_108_864, 10, vec![in alloc; 2]?)?;
    let ran = call(alloc, &mut files, &["tidy", "a"], narrow)?;
    assert!(rt; ran.status == Status::WriteFault);
    assert_eq!(rt; ran.out.bytes(), b"#include \"".as_slice());
    for (left, status) in [
        (67_108_865, Status::FileTooLarge),
        (67_108_864, Status::NotProfile(0)),
    ] {
        let mut zeros = Zeros { left, got: 0 };
        let ran = call(alloc, &mut zeros, &["tidy", "a"], sink(alloc)?)?;
        assert!(rt; ran.status == status, "{left}");
        assert_eq!(rt; ran.out.bytes().len(), 0, "{left}");
    }
    Ok(())
}

// The functions of the eight kinds have 6, 11, 12, 9, 10, 8, 38 and 15 bytes.
#[test]
fn tells_the_bytes_of_eight_functions(rt: HostRuntime) -> Result<(), Fail> {
    let line = drill_line(rt.alloc(), 8)?;
    assert!(rt; line.starts_with(b"functions=8 bytes=109 accepted="));
    Ok(())
}
