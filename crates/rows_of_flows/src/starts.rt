//! Words of a start, starts, and lines of outcomes, each worked out by hand.

use dream_words::{Bit, Call, Flags, Memory, Outcome, Regs, Width};
use elf_image::{Image, ImageFault};
use row_files::push_words;
use run_lines::{StartWord, are_start_words, count, line, start, start_word, value};
use sqlite_items::Items;
use std::alloc::{AllocError, Global};
use std::test::Fail;

#[test]
fn reads_values_and_counts(rt: HostRuntime) {
    for (word, want) in [
        ("0", Some(0)),
        ("0000000032", Some(32)),
        ("4294967295", Some(0xffff_ffff)),
        ("4294967296", None),
        ("9999999999", None),
        ("00000000032", None),
        ("0xfffffffb", Some(0xffff_fffb)),
        ("0x0aF", Some(0xaf)),
        ("0x", None),
        ("0x100000000", None),
        ("0xg", None),
        ("0X10", None),
        ("", None),
        ("-1", None),
        ("+1", None),
        ("5a", None),
    ] {
        assert_eq!(rt; value(word), want, "{word}");
    }
    for (word, least, most, want) in [
        ("0", 0, 1_000_000, Some(0)),
        ("1000000", 0, 1_000_000, Some(1_000_000)),
        ("1000001", 0, 1_000_000, None),
        ("0", 1, 4000, None),
        ("0004000", 1, 4000, Some(4000)),
        ("4001", 1, 4000, None),
        ("0x10", 1, 4000, None),
        ("", 0, 4000, None),
    ] {
        assert_eq!(rt; count(word, least, most), want, "{word}");
    }
}

#[test]
fn reads_words_of_a_start(rt: HostRuntime) -> Result<(), Fail> {
    for (word, want) in [
        ("7", Some(StartWord::Argument(7))),
        ("eax=0x01020304", Some(StartWord::Register(0, 0x0102_0304))),
        ("ecx=1", Some(StartWord::Register(1, 1))),
        ("edx=1", Some(StartWord::Register(2, 1))),
        ("ebx=1", Some(StartWord::Register(3, 1))),
        ("esp=1", Some(StartWord::Register(4, 1))),
        ("ebp=1", Some(StartWord::Register(5, 1))),
        ("esi=1", Some(StartWord::Register(6, 1))),
        ("edi=1", Some(StartWord::Register(7, 1))),
        ("EAX=1", None),
        ("eip=1", None),
        ("eax=", None),
        ("eax", None),
        ("=1", None),
        ("eax==1", None),
        ("eax=1=2", None),
        ("", None),
    ] {
        assert_eq!(rt; start_word(word), want, "{word}");
    }
    let alloc = rt.alloc();
    let mut words = Vec::new(alloc);
    for _ in 0..64 {
        words.push(String::from_str(alloc, "eax=1")?)?;
    }
    assert!(rt; are_start_words(&words));
    words.push(String::from_str(alloc, "eax=1")?)?;
    assert!(rt; !are_start_words(&words));
    assert!(rt; are_start_words(&[]));
    assert!(rt; !are_start_words(&[String::from_str(alloc, "1")?, String::new(alloc)]));
    Ok(())
}

/// An image of one segment of 0x54 bytes at 0x08048000 that can't be written.
fn image(alloc: Global) -> Result<Image, Fail> {
    let header = [0x0003_0002, 1, 0x0804_8000, 52, 0, 0, 0x0020_0034, 1, 0];
    let segment = [1, 0, 0x0804_8000, 0x0804_8000, 0x54, 0x60, 5, 4096];
    let mut bytes = Vec::from_slice(alloc, b"\x7fELF\x01\x01\x01\0\0\0\0\0\0\0\0\0")?;
    push_words(&mut bytes, &header)?;
    push_words(&mut bytes, &segment)?;
    match Image::read(alloc, &bytes) {
        Ok(image) => Ok(image),
        Err(ImageFault::Memory) => Err(AllocError.into()),
        Err(ImageFault::Elf(_)) => Err("no image".into()),
    }
}

fn words(alloc: Global, given: &[&str]) -> Result<Vec<String>, Fail> {
    let mut words = Vec::new(alloc);
    for word in given {
        words.push(String::from_str(alloc, word)?)?;
    }
    Ok(words)
}

fn regs(eax: u32, ecx: u32, esp: u32) -> Regs {
    Regs {
        eax,
        ecx,
        edx: 0,
        ebx: 0,
        esp,
        ebp: 0,
        esi: 0,
        edi: 0,
    }
}

#[test]
fn starts_as_words_say(rt: HostRuntime) -> Result<(), Fail> {
    let alloc = rt.alloc();
    let image = image(alloc)?;
    let given = words(
        alloc,
        &["0x01020304", "eax=5", "ecx=0xffffffff", "7", "eax=6"],
    )?;
    let begun = start(alloc, &image, &given)?;
    let clear = Flags {
        c: Bit::Zero,
        p: Bit::Zero,
        z: Bit::Zero,
        s: Bit::Zero,
        o: Bit::Zero,
    };
    assert_eq!(rt; begun.regs, regs(6, 0xffff_ffff, 0xbfff_0000));
    assert_eq!(rt; begun.flags, clear);
    assert_eq!(rt; (begun.fs, begun.gs), (0, 0));
    for (a, want) in [
        (0xbfff_0000, 0),
        (0xbfff_0004, 0x0102_0304),
        (0xbfff_0008, 7),
        (0xbfff_000c, 0),
        (0x0804_8000, 0x464c_457f),
    ] {
        assert_eq!(rt; begun.mem.load(a, Width::W), want, "at {a}");
    }
    // The first two bytes of the argument are frozen, and the others are past the file's bytes.
    let given = words(alloc, &["0xaabbccdd", "esp=0x0804804e"])?;
    let begun = start(alloc, &image, &given)?;
    assert_eq!(rt; begun.mem.load(0x0804_8052, Width::W), 0xaabb_0000);
    // The addresses wrap around.
    let given = words(alloc, &["esp=0xfffffffa", "0x11223344"])?;
    let begun = start(alloc, &image, &given)?;
    assert_eq!(rt; begun.mem.load(0xffff_fffe, Width::W), 0x1122_3344);
    assert_eq!(rt; begun.mem.load(0, Width::H), 0x1122);
    Ok(())
}

/// Calls with these targets.
fn calls(alloc: Global, targets: &[u32]) -> Result<Items<Call>, Fail> {
    let mut calls = Items::new(alloc);
    for target in targets {
        calls.push(Call {
            target: *target,
            regs: regs(0, 0, 0),
            mem: Memory::new(alloc),
        })?;
    }
    Ok(calls)
}

/// A fault after twelve calls.
fn faulted(alloc: Global) -> Result<Outcome, Fail> {
    Ok(Outcome::Faulted {
        vector: 14,
        at: 0x0060_0000,
        mem: Memory::new(alloc),
        calls: calls(alloc, &[1; 12])?,
    })
}

#[test]
fn tells_outcomes(rt: HostRuntime) -> Result<(), Fail> {
    let alloc = rt.alloc();
    let none: [u32; 0] = [];
    let begun = Memory::new(alloc);
    let mut mem = Memory::new(alloc);
    mem.place(0x2000_0000, &[4, 3, 0, 1])?;
    let returned = Outcome::Returned {
        regs: regs(6, 0xabcd_ef01, 0xbfff_0004),
        mem,
        calls: calls(alloc, &none)?,
    };
    let asking = Outcome::Asking {
        calls: calls(alloc, &[0x0804_8100, 0x0804_9000])?,
    };
    let going = Outcome::Going {
        calls: calls(alloc, &none)?,
    };
    for (outcome, want) in [
        (
            returned,
            "returned eax=00000006 ecx=abcdef01 edx=00000000 ebx=00000000 esp=bfff0004 ebp=00000000 esi=00000000 edi=00000000 calls=0 changed=3\n",
        ),
        (faulted(alloc)?, "faulted vector=14 calls=12 changed=0\n"),
        (asking, "asking target=08049000 calls=2\n"),
        (Outcome::Strayed, "strayed\n"),
        (Outcome::Undecoded, "undecoded\n"),
        (Outcome::Stuck, "stuck\n"),
        (going, "going calls=0\n"),
    ] {
        let told = line(alloc, &outcome, &begun)?;
        assert_eq!(rt; std::str::from_utf8(&told)?, want);
    }
    Ok(())
}
