//! The two lines of `run`: the machine's, and the C's.

ghost use Rattle.std.specs.Prelude.{◌≡◌, ℕ, [], Option, IfOk, IfErr, map, string_bytes};
ghost use Rattle.c_syntax.specs.Run.{c_run as c_run_of};
ghost use Rattle.machine.specs.Run.{machine_run};
ghost use Rattle.run_lines.specs.Lines.{line_of};
ghost use Rattle.dream_top.specs.Runs.{IsRunText, two_lines as two_lines_of};
ghost use Rattle.flow_graph.specs.Place.{HasNoText};
ghost use Rattle.machine.specs.Code.{Decodes};
ghost use Rattle.run_lines.specs.StartWords.{given_by};
ghost use Rattle.x86_inst.specs.declared.Inst.{Inst};

use c_run::run_c;
use c_syntax::CFun;
use dream_engine::{Form, decompile_fun};
use dream_words::Start;
use elf_image::{Image, Range};
use flow_graph::FlowFault;
use run_lines::{line, start};
use std::alloc::{AllocError, Global};

// What the machine's run of so many steps tells.
fn machine_line(
    alloc: Global,
    image: &Image,
    range: &Range,
    start: &Start,
    steps: u64,
) -> Result<Vec<u8>, AllocError>
    ensures { IfOk result (λ text. (decoded : ℕ → Option (Inst × ℕ)) → Decodes image.now range.now decoded → text.items ≡ line_of (machine_run image.now range.now decoded start.now [] steps) start.now.mem) }
{
    let outcome = machine::run(alloc, image, range, start, &[], steps)?;
    line(alloc, &outcome, &start.mem)
}

// What the C's run of so many turns tells.
fn c_line(alloc: Global, f: &CFun, start: &Start, turns: u64) -> Result<Vec<u8>, AllocError>
    ensures { IfOk result (λ text. text.items ≡ line_of (c_run_of f.now start.now [] turns) start.now.mem) }
{
    let outcome = run_c(alloc, f, start, &[], turns)?;
    line(alloc, &outcome, &start.mem)
}

// Both, the C's of twice so many turns.
fn two_lines(
    alloc: Global,
    image: &Image,
    range: &Range,
    f: &CFun,
    start: &Start,
    steps: u32,
) -> Result<Vec<u8>, AllocError>
    ensures { IfOk result (λ text. (decoded : ℕ → Option (Inst × ℕ)) → Decodes image.now range.now decoded → text.items ≡ two_lines_of image.now range.now decoded f.now start.now steps) }
{
    let steps = u64::from(steps);
    let mut text = machine_line(alloc, image, range, start, steps)?;
    let second = c_line(alloc, f, start, 2 * steps)?;
    text.extend_from_slice(&second)?;
    Ok(text)
}

/// The two lines of a function at a range of an image, from the start that words give.
pub fn run_text(
    alloc: Global,
    image: &Image,
    range: &Range,
    steps: u32,
    words: &[String],
) -> Result<Vec<u8>, FlowFault>
    ensures ok { IfOk result (λ text. IsRunText steps (given_by (map string_bytes words.now)) image.now range.now text.items) }
    ensures err { IfErr result (HasNoText image.now range.now) }
{
    let f = decompile_fun(alloc, image, range, Form::Structured)?;
    let begun = start(alloc, image, words)?;
    let text = two_lines(alloc, image, range, &f, &begun, steps)?;
    Ok(text)
}
