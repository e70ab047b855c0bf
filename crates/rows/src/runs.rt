//! Runs of the machine, their outcomes worked out by hand from the meaning of the instructions.

use crate::images::{ENTRY, image};
use dream_words::{Answer, Bit, Flags, Memory, Outcome, PageRun, Pages, Regs, Start, Width};
use elf_image::Range;
use machine::{run, start_memory};
use sqlite_items::Items;
use std::alloc::{AllocError, Global};
use std::test::Fail;

const ESP: u32 = 0xbfff_0000;

fn regs(eax: u32, ecx: u32, edi: u32) -> Regs {
    Regs {
        eax,
        ecx,
        edx: 0,
        ebx: 0,
        esp: ESP,
        ebp: 0,
        esi: 0,
        edi,
    }
}

fn flags() -> Flags {
    Flags {
        c: Bit::One,
        p: Bit::Undefined,
        z: Bit::Zero,
        s: Bit::Zero,
        o: Bit::Zero,
    }
}

/// The run of a range of some bytes of the code, from 7 in eax, 3 in ecx and 0x1000 in edi, with every
/// page.
fn run_code(
    alloc: Global,
    code: &[u8],
    size: u32,
    answers: &[Answer],
    steps: u64,
) -> Result<Outcome, Fail> {
    run_with(alloc, code, size, Pages::all(alloc)?, answers, steps)
}

/// The same with some pages.
fn run_with(
    alloc: Global,
    code: &[u8],
    size: u32,
    pages: Pages,
    answers: &[Answer],
    steps: u64,
) -> Result<Outcome, Fail> {
    let image = image(alloc, code, 16, &[], 0)?;
    let start = Start {
        regs: regs(7, 3, 0x1000),
        flags: flags(),
        fs: 0,
        gs: 0,
        mem: start_memory(alloc, &image)?,
        pages,
    };
    let range = Range::new(ENTRY, size);
    Ok(run(alloc, &image, &range, &start, answers, steps)?)
}

/// The kind of an outcome; its register eax, its vector or the target of its last call; its calls.
fn told(o: &Outcome) -> (&'static str, u32, usize) {
    match o {
        Outcome::Returned { regs, calls, .. } => ("returned", regs.eax, calls.len()),
        Outcome::Faulted { vector, calls, .. } => ("faulted", *vector, calls.len()),
        Outcome::Asking { calls } => {
            let target = calls.as_slice().last().map_or(0, |call| call.target);
            ("asking", target, calls.len())
        }
        Outcome::Strayed => ("strayed", 0, 0),
        Outcome::Undecoded => ("undecoded", 0, 0),
        Outcome::Stuck => ("stuck", 0, 0),
        Outcome::Going { calls } => ("going", 0, calls.len()),
    }
}

#[test]
fn runs_end_as_their_instructions_say(rt: HostRuntime) -> Result<(), Fail> {
    let cases: [(&[u8], u32, u64, (&str, u32, usize)); 14] = [
        // mov eax, 5; ret
        (b"\xb8\x05\0\0\0\xc3", 6, 2, ("returned", 5, 0)),
        (b"\xb8\x05\0\0\0\xc3", 6, 1, ("going", 0, 0)),
        (b"\xb8\x05\0\0\0\xc3", 6, 0, ("going", 0, 0)),
        // its range ends before the ret
        (b"\xb8\x05\0\0\0\xc3", 5, 2, ("asking", 0x0804_8105, 1)),
        (b"\xb8\x05\0\0\0\xc3", 4, 1, ("undecoded", 0, 0)),
        // push eax; ret
        (b"\x50\xc3", 2, 2, ("strayed", 0, 0)),
        // a call of the entry
        (b"\xe8\xfb\xff\xff\xff\xc3", 6, 1, ("asking", ENTRY, 1)),
        // xor ecx, ecx; div ecx
        (b"\x31\xc9\xf7\xf1\xc3", 5, 2, ("faulted", 0, 0)),
        // rep stosd; ret: three rounds, the last test, the return
        (b"\xf3\xab\xc3", 3, 4, ("going", 0, 0)),
        (b"\xf3\xab\xc3", 3, 5, ("returned", 7, 0)),
        // a jump to itself
        (b"\xeb\xfe", 2, 100, ("going", 0, 0)),
        // mov byte [0x08048100], 0xc6, which is its own first byte; ret
        (b"\xc6\x05\0\x81\x04\x08\xc6\xc3", 8, 2, ("returned", 7, 0)),
        // with another byte
        (b"\xc6\x05\0\x81\x04\x08\xc7\xc3", 8, 1, ("strayed", 0, 0)),
        // mov byte [esp + 3], 1, a byte of the return slot
        (b"\xc6\x44\x24\x03\x01\xc3", 6, 1, ("strayed", 0, 0)),
    ];
    for (code, size, steps, want) in cases {
        let outcome = run_code(rt.alloc(), code, size, &[], steps)?;
        assert_eq!(rt; told(&outcome), want, "in {steps} steps");
    }
    Ok(())
}

#[test]
fn a_string_is_stored(rt: HostRuntime) -> Result<(), Fail> {
    let outcome = run_code(rt.alloc(), b"\xf3\xab\xc3", 3, &[], 5)?;
    let Outcome::Returned {
        regs: last,
        mem,
        ..
    } = outcome
    else {
        return Err("it didn't return".into());
    };
    assert_eq!(rt; (last.ecx, last.edi, last.esp), (0, 0x100c, ESP + 4));
    for (at, want) in [
        (0xffc, 0),
        (0x1000, 7),
        (0x1004, 7),
        (0x1008, 7),
        (0x100c, 0),
    ] {
        assert_eq!(rt; mem.load(at, Width::W), want, "at {at}");
    }
    assert_eq!(rt; mem.load(ENTRY, Width::W), 0x00c3_abf3);
    Ok(())
}

fn answer(alloc: Global, mem: Memory) -> Result<Vec<Answer>, AllocError> {
    let mut answers = Vec::new(alloc);
    answers.push(Answer {
        regs: regs(9, 0, 0),
        flags: flags(),
        mem,
    })?;
    Ok(answers)
}

/// A call of the entry and then a return, with one answer.
#[test]
fn an_answer_keeps_what_must_stay(rt: HostRuntime) -> Result<(), Fail> {
    let alloc = rt.alloc();
    let code = b"\xe8\xfb\xff\xff\xff\xc3";
    let kept = start_memory(alloc, &image(alloc, code, 16, &[], 0)?)?;
    let answers = answer(alloc, kept)?;
    let outcome = run_code(alloc, code, 6, &answers, 2)?;
    assert_eq!(rt; told(&outcome), ("returned", 9, 1));
    // The frozen bytes are 0 in the answer.
    let answers = answer(alloc, Memory::new(alloc))?;
    let outcome = run_code(alloc, code, 6, &answers, 1)?;
    assert_eq!(rt; told(&outcome), ("strayed", 0, 0));
    Ok(())
}

/// Page 0 may be read, and page 1 written.
fn two_pages(alloc: Global) -> Result<Pages, AllocError> {
    Ok(Pages {
        read: Items::from_slice(alloc, &[PageRun { first: 0, count: 1 }])?,
        write: Items::from_slice(alloc, &[PageRun { first: 1, count: 1 }])?,
    })
}

#[test]
fn the_first_byte_that_is_refused_is_told(rt: HostRuntime) -> Result<(), Fail> {
    let alloc = rt.alloc();
    let cases: [(&[u8], (u32, u32)); 6] = [
        // mov eax, [0xffd], whose last byte is on page 1
        (b"\xa1\xfd\x0f\0\0", (14, 0x1000)),
        // mov [0x1ffe], eax, whose third byte is on page 2
        (b"\xa3\xfe\x1f\0\0", (14, 0x2000)),
        // mov [0xffe], eax, whose first byte is on page 0
        (b"\xa3\xfe\x0f\0\0", (14, 0xffe)),
        // inc dword [0xffe], which reads page 1 before it writes page 0
        (b"\xff\x05\xfe\x0f\0\0", (14, 0x1000)),
        // mov eax, [0xfffffffe], which wraps around
        (b"\xa1\xfe\xff\xff\xff", (14, 0xffff_fffe)),
        // div dword [0x800], by 0, which may be read
        (b"\xf7\x35\0\x08\0\0", (0, 0)),
    ];
    for (code, want) in cases {
        let size = u32::try_from(code.len())?;
        let outcome = run_with(alloc, code, size, two_pages(alloc)?, &[], 1)?;
        let Outcome::Faulted {
            vector,
            at,
            mem,
            ..
        } = outcome
        else {
            return Err("it didn't fault".into());
        };
        assert_eq!(rt; (vector, at), want);
        assert_eq!(rt; mem.load(0x1000, Width::W), 0);
    }
    Ok(())
}
