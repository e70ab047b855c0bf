//! The line that tells an outcome.

ghost use Rattle.std.specs.Prelude.{◌≡◌, ◌++◌, codes, length, OnOk, IfOk};
ghost use Rattle.std.specs.Fmt.{decimal};
ghost use Rattle.c_syntax.specs.Spelling.{last_digits};
ghost use Rattle.run_lines.specs.Lines.{last_target as last_target_of, line_of};

use c_print::eight_digits;
use dream_words::{Call, Memory, Outcome, Regs};
use itoa::Buffer;
use std::alloc::{AllocError, Global};

// Adds a name and a word.
fn put_word(line: &mut Vec<u8>, name: &str, v: u32) -> Result<(), AllocError>
    ensures { OnOk result (line.new.items ≡ line.old.items ++ name.now ++ last_digits 8 v) }
{
    line.extend_from_slice(name.as_bytes())?;
    line.extend_from_slice(&eight_digits(v))
}

// Adds a name and a number.
fn put_number(line: &mut Vec<u8>, name: &str, n: u64) -> Result<(), AllocError>
    ensures { OnOk result (line.new.items ≡ line.old.items ++ name.now ++ decimal n) }
{
    line.extend_from_slice(name.as_bytes())?;
    line.extend_from_slice(Buffer::new().format(n).as_bytes())
}

// The line of a return.
fn returned(alloc: Global, regs: Regs, calls: u64, changed: u64) -> Result<Vec<u8>, AllocError>
    ensures { IfOk result (λ line. line.items ≡
        codes "returned eax=" ++ last_digits 8 regs.eax ++ codes " ecx=" ++ last_digits 8 regs.ecx
        ++ codes " edx=" ++ last_digits 8 regs.edx ++ codes " ebx=" ++ last_digits 8 regs.ebx
        ++ codes " esp=" ++ last_digits 8 regs.esp ++ codes " ebp=" ++ last_digits 8 regs.ebp
        ++ codes " esi=" ++ last_digits 8 regs.esi ++ codes " edi=" ++ last_digits 8 regs.edi
        ++ codes " calls=" ++ decimal calls ++ codes " changed=" ++ decimal changed ++ codes "\n") }
{
    let mut line = Vec::new(alloc);
    put_word(&mut line, "returned eax=", regs.eax)?;
    put_word(&mut line, " ecx=", regs.ecx)?;
    put_word(&mut line, " edx=", regs.edx)?;
    put_word(&mut line, " ebx=", regs.ebx)?;
    put_word(&mut line, " esp=", regs.esp)?;
    put_word(&mut line, " ebp=", regs.ebp)?;
    put_word(&mut line, " esi=", regs.esi)?;
    put_word(&mut line, " edi=", regs.edi)?;
    put_number(&mut line, " calls=", calls)?;
    put_number(&mut line, " changed=", changed)?;
    line.extend_from_slice(b"\n")?;
    Ok(line)
}

// The line of a fault.
fn faulted(alloc: Global, vector: u32, calls: u64, changed: u64) -> Result<Vec<u8>, AllocError>
    ensures { IfOk result (λ line. line.items ≡
        codes "faulted vector=" ++ decimal vector ++ codes " calls=" ++ decimal calls
        ++ codes " changed=" ++ decimal changed ++ codes "\n") }
{
    let mut line = Vec::new(alloc);
    put_number(&mut line, "faulted vector=", u64::from(vector))?;
    put_number(&mut line, " calls=", calls)?;
    put_number(&mut line, " changed=", changed)?;
    line.extend_from_slice(b"\n")?;
    Ok(line)
}

// The target of the last call.
fn last_target(calls: &[Call]) -> u32
    ensures { result ≡ last_target_of calls.now }
{
    match calls.last() {
        Some(call) => call.target,
        None => 0,
    }
}

// The line of a run that asks.
fn asking(alloc: Global, calls: &[Call]) -> Result<Vec<u8>, AllocError>
    ensures { IfOk result (λ line. line.items ≡
        codes "asking target=" ++ last_digits 8 (last_target_of calls.now) ++ codes " calls="
        ++ decimal (length calls.now) ++ codes "\n") }
{
    let mut line = Vec::new(alloc);
    put_word(&mut line, "asking target=", last_target(calls))?;
    put_number(&mut line, " calls=", calls.len() as u64)?;
    line.extend_from_slice(b"\n")?;
    Ok(line)
}

// The line of a run that goes on.
fn going(alloc: Global, calls: u64) -> Result<Vec<u8>, AllocError>
    ensures { IfOk result (λ line. line.items ≡ codes "going calls=" ++ decimal calls ++ codes "\n") }
{
    let mut line = Vec::new(alloc);
    put_number(&mut line, "going calls=", calls)?;
    line.extend_from_slice(b"\n")?;
    Ok(line)
}

/// The line of an outcome, with its line feed. `start` is the memory that the run began with.
pub fn line(alloc: Global, outcome: &Outcome, start: &Memory) -> Result<Vec<u8>, AllocError>
    ensures { IfOk result (λ line. line.items ≡ line_of outcome.now start.now) }
{
    match outcome {
        Outcome::Returned { regs, mem, calls } => {
            returned(alloc, *regs, calls.len() as u64, start.differs(mem))
        }
        Outcome::Faulted {
            vector,
            mem,
            calls,
            ..
        } => faulted(alloc, *vector, calls.len() as u64, start.differs(mem)),
        Outcome::Asking { calls } => asking(alloc, calls.as_slice()),
        Outcome::Strayed => Vec::from_slice(alloc, b"strayed\n"),
        Outcome::Undecoded => Vec::from_slice(alloc, b"undecoded\n"),
        Outcome::Stuck => Vec::from_slice(alloc, b"stuck\n"),
        Outcome::Going { calls } => going(alloc, calls.len() as u64),
    }
}
