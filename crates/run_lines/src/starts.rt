//! The start that words of the command line give.

ghost use Rattle.std.specs.Prelude.{◌≡◌, map, string_bytes, OnOk, IfOk};
ghost use Rattle.run_lines.specs.StartWords.{registers_in, arguments_in, given_by};
ghost use Rattle.run_lines.specs.Starts.{first_regs, with_registers, with_free, with_argument, with_arguments, IsStartOf};

use crate::words::{StartWord, start_word};
use dream_words::{Bit, Flags, Memory, Pages, Regs, Start, Width};
use elf_image::Image;
use machine::start_memory;
use std::alloc::{AllocError, Global};

// The registers, of which words name some. A later word wins.
fn registers(words: &[String]) -> Regs
    ensures { result ≡ with_registers first_regs (registers_in (map string_bytes words.now)) }
{
    let mut regs = Regs {
        eax: 0,
        ecx: 0,
        edx: 0,
        ebx: 0,
        esp: 0xbfff_0000,
        ebp: 0,
        esi: 0,
        edi: 0,
    };
    for word in words {
        if let Some(StartWord::Register(n, v)) = start_word(word.as_str()) {
            regs.set(n, v);
        }
    }
    regs
}

// Puts the low byte of a number at an address, unless the byte there is frozen.
fn put_free(image: &Image, mem: &mut Memory, a: u32, v: u32) -> Result<(), AllocError>
    ensures { OnOk result (mem.new ≡ with_free image.now mem.old a v) }
{
    if image.frozen(a).is_some() {
        return Ok(());
    }
    mem.store(a, Width::B, v)
}

// Puts the four bytes of an argument at an address.
fn put_argument(image: &Image, mem: &mut Memory, a: u32, v: u32) -> Result<(), AllocError>
    ensures { OnOk result (mem.new ≡ with_argument image.now mem.old a v) }
{
    put_free(image, mem, a, v)?;
    put_free(image, mem, a.wrapping_add(1), v >> 8)?;
    put_free(image, mem, a.wrapping_add(2), v >> 16)?;
    put_free(image, mem, a.wrapping_add(3), v >> 24)
}

// Puts the arguments among words above ESP, 4 bytes apart.
fn put_arguments(
    image: &Image,
    mem: &mut Memory,
    esp: u32,
    words: &[String],
) -> Result<(), AllocError>
    ensures { OnOk result (mem.new ≡ with_arguments image.now mem.old esp (arguments_in (map string_bytes words.now))) }
{
    let mut a = esp;
    for word in words {
        if let Some(StartWord::Argument(v)) = start_word(word.as_str()) {
            a = a.wrapping_add(4);
            put_argument(image, mem, a, v)?;
        }
    }
    Ok(())
}

/// The start that words give. ESP is 0xbfff0000 and the other registers are 0, but for those that words name; then the
/// j-th argument, counted from 1, stands 4j bytes above ESP, where no byte is frozen. The rest of the memory is the
/// image's; flags and bases are 0, and every page may be read and written. A word that says nothing is passed over.
pub fn start(alloc: Global, image: &Image, words: &[String]) -> Result<Start, AllocError>
    ensures { IfOk result (λ s. IsStartOf image.now (given_by (map string_bytes words.now)) s) }
{
    let regs = registers(words);
    let pages = Pages::all(alloc)?;
    let mut mem = start_memory(alloc, image)?;
    put_arguments(image, &mut mem, regs.esp, words)?;
    let flags = Flags {
        c: Bit::Zero,
        p: Bit::Zero,
        z: Bit::Zero,
        s: Bit::Zero,
        o: Bit::Zero,
    };
    Ok(Start {
        regs,
        flags,
        fs: 0,
        gs: 0,
        mem,
        pages,
    })
}
