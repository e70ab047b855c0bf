//! Runs with rights to some pages alone: the machine's, and that of the function that is decompiled.

use c_run::run_c;
use c_syntax::{CFun, CStmt};
use dream_engine::{Form, decompile_fun};
use dream_words::{Bit, Flags, Memory, Outcome, PageRun, Pages, Regs, Start};
use elf_image::{Image, Range};
use machine::run;
use row_files::elf;
use sqlite_items::Items;
use std::alloc::{AllocError, Global};
use std::test::Fail;

const BASE: u32 = 0x0804_8100;

/// The page 0xbfff0 may be read, and none may be written.
fn one_page(alloc: Global) -> Result<Pages, AllocError> {
    let page = PageRun {
        first: 0xbfff0,
        count: 1,
    };
    Ok(Pages {
        read: Items::from_slice(alloc, &[page])?,
        write: Items::new(alloc),
    })
}

/// All registers but these three are 0, and so are the flags.
fn start(alloc: Global, ecx: u32, edx: u32, esp: u32, pages: Pages) -> Start {
    Start {
        regs: Regs {
            eax: 0,
            ecx,
            edx,
            ebx: 0,
            esp,
            ebp: 0,
            esi: 0,
            edi: 0,
        },
        flags: Flags {
            c: Bit::Zero,
            p: Bit::Zero,
            z: Bit::Zero,
            s: Bit::Zero,
            o: Bit::Zero,
        },
        fs: 0,
        gs: 0,
        mem: Memory::new(alloc),
        pages,
    }
}

fn image(alloc: Global, code: &[u8]) -> Result<Image, Fail> {
    match Image::read(alloc, &elf(alloc, code)?) {
        Ok(m) => Ok(m),
        Err(_) => Err("no image".into()),
    }
}

fn function(alloc: Global, m: &Image, code: &[u8]) -> Result<CFun, Fail> {
    let range = Range::new(BASE, u32::try_from(code.len())?);
    match decompile_fun(alloc, m, &range, Form::Structured) {
        Ok(f) => Ok(f),
        Err(_) => Err("no function".into()),
    }
}

/// The kind of an outcome; its vector or its register eax; its address or its register esp.
fn told(o: &Outcome) -> (&'static str, u32, u32) {
    match o {
        Outcome::Returned { regs, .. } => ("returned", regs.eax, regs.esp),
        Outcome::Faulted { vector, at, .. } => ("faulted", *vector, *at),
        _ => ("other", 0, 0),
    }
}

#[test]
fn accesses_fault_at_their_first_byte_that_is_not_allowed(rt: HostRuntime) -> Result<(), Fail> {
    let alloc = rt.alloc();
    let rows: [(&[u8], u32, u32, u32, u32); 5] = [
        // mov eax, [esp+4]; ret
        (b"\x8b\x44\x24\x04\xc3", 0, 0, 0xbfff_0ffc, 0xbfff_1000),
        (b"\x8b\x44\x24\x04\xc3", 0, 0, 0xbfff_0ff9, 0xbfff_1000),
        // test [esp+4], eax; ret
        (b"\x85\x44\x24\x04\xc3", 0, 0, 0xbfff_0ffc, 0xbfff_1000),
        // push eax; pop eax; ret
        (b"\x50\x58\xc3", 0, 0, 0xbfff_0000, 0xbffe_fffc),
        // mov eax, [ecx]; mov edx, [edx]; ret
        (b"\x8b\x01\x8b\x12\xc3", 0x1000, 0x2000, 0xbfff_0000, 0x1000),
    ];
    for (code, ecx, edx, esp, at) in rows {
        let m = image(alloc, code)?;
        let f = function(alloc, &m, code)?;
        let range = Range::new(BASE, u32::try_from(code.len())?);
        let begun = start(alloc, ecx, edx, esp, one_page(alloc)?);
        let machine = run(alloc, &m, &range, &begun, &[], 100)?;
        assert_eq!(rt; told(&machine), ("faulted", 14, at));
        let text = run_c(alloc, &f, &begun, &[], 200)?;
        assert_eq!(rt; told(&text), ("faulted", 14, at));
    }
    Ok(())
}

#[test]
fn with_all_pages_the_function_returns(rt: HostRuntime) -> Result<(), Fail> {
    let alloc = rt.alloc();
    // mov eax, [esp+4]; ret
    let code = b"\x8b\x44\x24\x04\xc3";
    let m = image(alloc, code)?;
    let f = function(alloc, &m, code)?;
    let begun = start(alloc, 0, 0, 0xbfff_0000, Pages::all(alloc)?);
    let machine = run(alloc, &m, &Range::new(BASE, 5), &begun, &[], 100)?;
    assert_eq!(rt; told(&machine), ("returned", 0, 0xbfff_0004));
    let text = run_c(alloc, &f, &begun, &[], 200)?;
    assert_eq!(rt; told(&text), ("returned", 0, 0xbfff_0004));
    Ok(())
}

#[test]
fn a_load_that_nothing_reads_stays(rt: HostRuntime) -> Result<(), Fail> {
    let alloc = rt.alloc();
    // test [esp+4], eax; ret
    let code = b"\x85\x44\x24\x04\xc3";
    let m = image(alloc, code)?;
    let f = function(alloc, &m, code)?;
    let mut loads: u32 = 0;
    for s in f.body.as_slice() {
        if matches!(s, CStmt::Load(_, _, _)) {
            loads = loads.wrapping_add(1);
        }
    }
    assert_eq!(rt; loads, 1);
    Ok(())
}
