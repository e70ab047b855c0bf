//! What is refused, and the notes that tell so.

use crate::calls::{Zeros, call, decompile, files, sink};
use dream_outside::MemSink;
use dream_top::Status;
use elf_image::ElfFault;
use flow_graph::{Cause, Place};
use row_files::{MOVE, elf, elf_at, elf_with_main};
use std::alloc::Global;
use std::test::Fail;

// Names that no function has. What is no address form is a name.
#[test]
fn misses_functions(rt: HostRuntime) -> Result<(), Fail> {
    let alloc = rt.alloc();
    let names = [
        "main",
        "08048100+6",
        "0x08048100",
        "0x08048100+",
        "0x+6",
        "0x008048100+6",
        "0x0804810g+6",
    ];
    for name in names {
        let ran = decompile(alloc, elf(alloc, &MOVE)?, name)?;
        assert!(rt; ran.status == Status::NoFunction, "{name}");
        assert_eq!(rt; ran.notes.bytes(), b"dream: no such function\n".as_slice());
        assert_eq!(rt; ran.out.bytes().len(), 0, "{name}");
    }
    let ran = decompile(alloc, elf_with_main(alloc)?, "mai")?;
    assert!(rt; ran.status == Status::NoFunction);
    Ok(())
}

// One byte of the file with a name is another: of the size of section headers, of the place of their table, of the number
// of the names' section, and of the names. By its address the function is found all the same.
#[test]
fn refuses_sections(rt: HostRuntime) -> Result<(), Fail> {
    let alloc = rt.alloc();
    let cases = [
        (46, 39, Status::NotElf(ElfFault { kind: 12, at: 46 })),
        (35, 0xff, Status::NotElf(ElfFault { kind: 12, at: 32 })),
        (364, 3, Status::NotElf(ElfFault { kind: 12, at: 340 })),
        (299, 0x41, Status::NoFunction),
    ];
    for (place, byte, status) in cases {
        let mut file = elf_with_main(alloc)?;
        *file.get_mut(place).ok_or("no such byte")? = byte;
        let ran = decompile(alloc, file.clone()?, "0x08048100+6")?;
        assert!(rt; ran.status == Status::Done, "{place}");
        let ran = decompile(alloc, file, "main")?;
        assert!(rt; ran.status == status, "{place}");
        assert_eq!(rt; ran.out.bytes().len(), 0, "{place}");
    }
    let mut file = elf_with_main(alloc)?;
    *file.get_mut(46).ok_or("no such byte")? = 39;
    let ran = decompile(alloc, file, "main")?;
    assert_eq!(rt;
        ran.notes.bytes(),
        b"dream: not an accepted ELF file: SectionOutside at 46\n".as_slice()
    );
    Ok(())
}

#[test]
fn names_the_place_outside(rt: HostRuntime) -> Result<(), Fail> {
    let alloc = rt.alloc();
    let cases: [(&[u8], &str, u32, Cause, &str); 9] = [
        (
            &MOVE,
            "0x08048100+0",
            0x0804_8100,
            Cause::RangeEmpty,
            "dream: outside the profile: RangeEmpty at 0x08048100\n",
        ),
        (
            &MOVE,
            "0x0804810A+0",
            0x0804_810a,
            Cause::RangeEmpty,
            "dream: outside the profile: RangeEmpty at 0x0804810a\n",
        ),
        (
            &MOVE[..3],
            "0x08048100+3",
            0x0804_8100,
            Cause::Straddle,
            "dream: outside the profile: Straddle at 0x08048100\n",
        ),
        (
            &[0x90, 0xd9, 0xe8, 0xc3],
            "0x08048100+4",
            0x0804_8101,
            Cause::Instruction,
            "dream: outside the profile: Instruction at 0x08048101\n",
        ),
        (
            &[0xff, 0xe0],
            "0x08048100+2",
            0x0804_8100,
            Cause::IndirectJump,
            "dream: outside the profile: IndirectJump at 0x08048100\n",
        ),
        (
            &[0xe8, 0, 0, 0, 0, 0x58, 0xc3],
            "0x08048100+7",
            0x0804_8100,
            Cause::CallInside,
            "dream: outside the profile: CallInside at 0x08048100\n",
        ),
        (
            &MOVE,
            "0x08049000+4",
            0x0804_9000,
            Cause::RangeUnbacked,
            "dream: outside the profile: RangeUnbacked at 0x08049000\n",
        ),
        (
            &MOVE,
            "0xffffffff+2",
            0xffff_ffff,
            Cause::RangeUnbacked,
            "dream: outside the profile: RangeUnbacked at 0xffffffff\n",
        ),
        (
            &MOVE,
            "0x08048100+10001",
            0x0804_8100,
            Cause::RangeTooLarge,
            "dream: outside the profile: RangeTooLarge at 0x08048100\n",
        ),
    ];
    for (code, func, at, cause, note) in cases {
        let ran = decompile(alloc, elf(alloc, code)?, func)?;
        assert!(rt;
            ran.status == Status::Outside(Place { at, cause }),
            "{func}"
        );
        assert_eq!(rt; ran.notes.bytes(), note.as_bytes(), "{func}");
        assert_eq!(rt; ran.out.bytes().len(), 0, "{func}");
    }
    // All bytes up to the last address are frozen, and the range goes past it.
    let ran = decompile(
        alloc,
        elf_at(alloc, 0xffff_fefa, &MOVE, false)?,
        "0xfffffffa+7",
    )?;
    let place = Place {
        at: 0xffff_ffff,
        cause: Cause::RangeUnbacked,
    };
    assert!(rt; ran.status == Status::Outside(place));
    Ok(())
}

#[test]
fn tells_how_words_are_used(rt: HostRuntime) -> Result<(), Fail> {
    let alloc = rt.alloc();
    let note =
        "dream: usage: decompile PATH FUNC, plain PATH FUNC, run PATH FUNC N WORDS, tidy PATH, drill N, prelude\n";
    let cases: [&[&str]; 23] = [
        &[],
        &["--help"],
        &["decompile"],
        &["decompile", "a"],
        &["decompile", "", "0x08048100+6"],
        &["decompile", "a", ""],
        &["plain", "a", ""],
        &["decompile", "", "main"],
        &["decompile", "a", "0x08048100+6", ""],
        &["run", "a", "main"],
        &["run", "a", "0x08048100+6"],
        &["run", "a", "0x08048100+6", "1000001"],
        &["run", "a", "0x08048100+6", "0x10"],
        &["run", "a", "0x08048100+6", "10", "ax=1"],
        &["tidy"],
        &["tidy", ""],
        &["tidy", "a", "main"],
        &["drill"],
        &["drill", "0"],
        &["drill", "4001"],
        &["drill", "0x10"],
        &["drill", "8", "8"],
        &["prelude", "x"],
    ];
    for words in cases {
        let mut files = files(alloc, elf(alloc, &MOVE)?, Vec::new(alloc))?;
        let ran = call(alloc, &mut files, words, sink(alloc)?)?;
        assert!(rt; ran.status == Status::Usage, "{words:?}");
        assert_eq!(rt; ran.notes.bytes(), note.as_bytes(), "{words:?}");
        assert_eq!(rt; ran.out.bytes().len(), 0, "{words:?}");
    }
    Ok(())
}

// The first bytes of a file.
fn cut(alloc: Global, len: usize) -> Result<Vec<u8>, Fail> {
    let mut bytes = elf(alloc, &MOVE)?;
    bytes.truncate(len);
    Ok(bytes)
}

#[test]
fn refuses_files(rt: HostRuntime) -> Result<(), Fail> {
    let alloc = rt.alloc();
    let mut other_class = elf(alloc, &MOVE)?;
    *other_class.get_mut(4).ok_or("no fourth byte")? = 2;
    let cases = [
        (
            cut(alloc, 0)?,
            ElfFault { kind: 1, at: 0 },
            "dream: not an accepted ELF file: Short at 0\n",
        ),
        (
            cut(alloc, 51)?,
            ElfFault { kind: 1, at: 51 },
            "dream: not an accepted ELF file: Short at 51\n",
        ),
        (
            cut(alloc, 52)?,
            ElfFault { kind: 9, at: 28 },
            "dream: not an accepted ELF file: TableOutside at 28\n",
        ),
        (
            other_class,
            ElfFault { kind: 3, at: 4 },
            "dream: not an accepted ELF file: Class at 4\n",
        ),
        (
            elf_at(alloc, 0x0804_8000, &MOVE, true)?,
            ElfFault { kind: 11, at: 84 },
            "dream: not an accepted ELF file: Overlap at 84\n",
        ),
    ];
    for (file, fault, note) in cases {
        let ran = decompile(alloc, file, "0x08048100+6")?;
        assert!(rt; ran.status == Status::NotElf(fault), "{note}");
        assert_eq!(rt; ran.notes.bytes(), note.as_bytes());
        assert_eq!(rt; ran.out.bytes().len(), 0, "{note}");
    }
    Ok(())
}

#[test]
fn tells_faults_of_the_outside(rt: HostRuntime) -> Result<(), Fail> {
    let alloc = rt.alloc();
    // The third call on the files, the second `take`, fails.
    let mut failing = files(alloc, elf(alloc, &MOVE)?, vec![in alloc; 3]?)?;
    let ran = call(
        alloc,
        &mut failing,
        &["decompile", "a", "0x08048100+6"],
        sink(alloc)?,
    )?;
    assert!(rt; ran.status == Status::ReadFault);
    assert_eq!(rt; ran.notes.bytes(), b"dream: read fault\n".as_slice());
    assert_eq!(rt; ran.out.bytes().len(), 0);
    // Nothing is held at the path.
    let mut sound = files(alloc, elf(alloc, &MOVE)?, Vec::new(alloc))?;
    let ran = call(
        alloc,
        &mut sound,
        &["decompile", "b", "0x08048100+6"],
        sink(alloc)?,
    )?;
    assert!(rt; ran.status == Status::ReadFault);
    assert_eq!(rt; ran.notes.bytes(), b"dream: read fault\n".as_slice());
    assert_eq!(rt; ran.out.bytes().len(), 0);
    // The second put on the output fails.
    let narrow = MemSink::new(alloc, 67_108_864, 10, vec![in alloc; 2]?)?;
    let ran = call(
        alloc,
        &mut sound,
        &["decompile", "a", "0x08048100+6"],
        narrow,
    )?;
    assert!(rt; ran.status == Status::WriteFault);
    assert_eq!(rt; ran.notes.bytes(), b"dream: write fault\n".as_slice());
    assert_eq!(rt; ran.out.bytes(), b"#include \"".as_slice());
    Ok(())
}

#[test]
fn refuses_more_bytes_than_the_limit(rt: HostRuntime) -> Result<(), Fail> {
    let alloc = rt.alloc();
    let words = ["decompile", "a", "0x08048100+6"];
    let mut zeros = Zeros {
        left: 67_108_865,
        got: 0,
    };
    let ran = call(alloc, &mut zeros, &words, sink(alloc)?)?;
    assert!(rt; ran.status == Status::FileTooLarge);
    assert_eq!(rt; ran.notes.bytes(), b"dream: file too large\n".as_slice());
    assert_eq!(rt; ran.out.bytes().len(), 0);
    // One byte less is read whole.
    let mut zeros = Zeros {
        left: 67_108_864,
        got: 0,
    };
    let ran = call(alloc, &mut zeros, &words, sink(alloc)?)?;
    assert!(rt; ran.status == Status::NotElf(ElfFault { kind: 2, at: 0 }));
    Ok(())
}
