//! The program's one call.

ghost use Rattle.std.specs.Prelude.{◌≤◌, map, string_bytes, IfOk, IfErr};
ghost use Rattle.dream_top.specs.CommandLine.{target_said, command_of};
ghost use Rattle.dream_top.specs.Notes.{note_of};
ghost use Rattle.dream_top.specs.Answers.{reading_of, writing_of, Makes, Refuses, AnswersFunction, Tidies, RefusesText, AnswersTidy, IsLeft, Writes, WritesMade, Answers, Tells};
ghost use Rattle.dream_engine.specs.Agreement.{IsDecompiled};
ghost use Rattle.dream_top.specs.Header.{header_text};
ghost use Rattle.dream_top.specs.Runs.{IsRunText};
ghost use Rattle.run_lines.specs.StartWords.{given_by};
ghost use Rattle.drill_lines.specs.Lines.{IsDrillLine};

use crate::finding::find;
use crate::header::HEADER;
use crate::load::load;
use crate::notes::tell;
use crate::runs::run_text;
use crate::status::Status;
use crate::words::{Command, Target, command_in};
use crate::writing::put_all;
use c_print::print;
use c_read::read;
use dream_engine::{Form, decompile_one};
use dream_outside::{Files, Sink};
use drill_lines::drill_line;
use std::alloc::Global;

// Writes a text.
fn write_text<K: Sink>(text: &[u8], out: &mut K) -> Status
    ensures { Writes result
        (writing_of (K.taken out.old) (K.taken out.new) (K.faults out.old) (K.faults out.new))
        text.now }
{
    match put_all(out, text) {
        Ok(()) => Status::Done,
        Err(_) => Status::WriteFault,
    }
}

// Writes a text that was made, if one was.
fn write_made<K: Sink>(made: Result<Vec<u8>, Status>, out: &mut K) -> Status
    ensures ok { IfOk made (λ text. Writes result
        (writing_of (K.taken out.old) (K.taken out.new) (K.faults out.old) (K.faults out.new))
        text.items) }
    ensures err { IfErr made (λ why. IsLeft why result (K.taken out.old) (K.taken out.new)) }
{
    match made {
        Ok(text) => write_text(&text, out),
        Err(status) => status,
    }
}

// The text of a function, in a form.
fn decompile<F: Files>(
    alloc: Global,
    files: &mut F,
    form: Form,
    target: Target<'_>,
) -> Result<Vec<u8>, Status>
    ensures ok { IfOk result (λ text. Makes (IsDecompiled form)
        (reading_of (F.held files.old) (F.faults files.old) (F.faults files.new) (F.got files.old) (F.got files.new))
        (target_said target.entry) text.items) }
    ensures err { IfErr result (λ s. Refuses s
        (reading_of (F.held files.old) (F.faults files.old) (F.faults files.new) (F.got files.old) (F.got files.new))
        (target_said target.entry)) }
{
    let found = find(alloc, files, target)?;
    Ok(decompile_one(alloc, &found.image, &found.range, form)?)
}

// Writes that text.
fn write_function<F: Files, K: Sink>(
    alloc: Global,
    files: &mut F,
    form: Form,
    target: Target<'_>,
    out: &mut K,
) -> Status
    ensures { AnswersFunction (IsDecompiled form) result
        (reading_of (F.held files.old) (F.faults files.old) (F.faults files.new) (F.got files.old) (F.got files.new))
        (writing_of (K.taken out.old) (K.taken out.new) (K.faults out.old) (K.faults out.new))
        (target_said target.entry) }
{
    let made = decompile(alloc, files, form, target);
    write_made(made, out)
}

// The two lines of a function.
fn run<F: Files>(
    alloc: Global,
    files: &mut F,
    target: Target<'_>,
    steps: u32,
    words: &[String],
) -> Result<Vec<u8>, Status>
    ensures ok { IfOk result (λ text. Makes (IsRunText steps (given_by (map string_bytes words.now)))
        (reading_of (F.held files.old) (F.faults files.old) (F.faults files.new) (F.got files.old) (F.got files.new))
        (target_said target.entry) text.items) }
    ensures err { IfErr result (λ s. Refuses s
        (reading_of (F.held files.old) (F.faults files.old) (F.faults files.new) (F.got files.old) (F.got files.new))
        (target_said target.entry)) }
{
    let found = find(alloc, files, target)?;
    Ok(run_text(alloc, &found.image, &found.range, steps, words)?)
}

// Writes these lines.
fn write_run<F: Files, K: Sink>(
    alloc: Global,
    files: &mut F,
    target: Target<'_>,
    steps: u32,
    words: &[String],
    out: &mut K,
) -> Status
    ensures { AnswersFunction (IsRunText steps (given_by (map string_bytes words.now))) result
        (reading_of (F.held files.old) (F.faults files.old) (F.faults files.new) (F.got files.old) (F.got files.new))
        (writing_of (K.taken out.old) (K.taken out.new) (K.faults out.old) (K.faults out.new))
        (target_said target.entry) }
{
    let made = run(alloc, files, target, steps, words);
    write_made(made, out)
}

// The canonical text of the text at a path.
fn tidy<F: Files>(alloc: Global, files: &mut F, path: &str) -> Result<Vec<u8>, Status>
    ensures ok { IfOk result (λ text. Tidies
        (reading_of (F.held files.old) (F.faults files.old) (F.faults files.new) (F.got files.old) (F.got files.new))
        path.now text.items) }
    ensures err { IfErr result (λ s. RefusesText s
        (reading_of (F.held files.old) (F.faults files.old) (F.faults files.new) (F.got files.old) (F.got files.new))
        path.now) }
{
    let bytes = load(alloc, files, path)?;
    let function = read(alloc, &bytes)?;
    match print(alloc, &function) {
        Ok(text) => Ok(text),
        Err(_) => Err(Status::NoMemory),
    }
}

// Writes that text.
fn write_tidy<F: Files, K: Sink>(alloc: Global, files: &mut F, path: &str, out: &mut K) -> Status
    ensures { AnswersTidy result
        (reading_of (F.held files.old) (F.faults files.old) (F.faults files.new) (F.got files.old) (F.got files.new))
        (writing_of (K.taken out.old) (K.taken out.new) (K.faults out.old) (K.faults out.new))
        path.now }
{
    let made = tidy(alloc, files, path);
    write_made(made, out)
}

// Writes the line of a drill.
fn write_drill<K: Sink>(alloc: Global, functions: u32, out: &mut K) -> Status
    requires some { 1 ≤ functions }
    requires few { functions ≤ 4000 }
    ensures { WritesMade (IsDrillLine functions) result
        (writing_of (K.taken out.old) (K.taken out.new) (K.faults out.old) (K.faults out.new)) }
{
    match drill_line(alloc, functions) {
        Err(_) => Status::NoMemory,
        Ok(text) => write_text(&text, out),
    }
}

// Writes the header that each text includes.
fn write_header<K: Sink>(out: &mut K) -> Status
    ensures { Writes result
        (writing_of (K.taken out.old) (K.taken out.new) (K.faults out.old) (K.faults out.new))
        header_text }
{
    write_text(HEADER.as_bytes(), out)
}

// Does what the words ask for, but for the note.
fn work<F: Files, K: Sink>(alloc: Global, words: &[String], files: &mut F, out: &mut K) -> Status
    ensures { Answers result
        (reading_of (F.held files.old) (F.faults files.old) (F.faults files.new) (F.got files.old) (F.got files.new))
        (writing_of (K.taken out.old) (K.taken out.new) (K.faults out.old) (K.faults out.new))
        (command_of (map string_bytes words.now)) }
{
    match command_in(words) {
        None => Status::Usage,
        Some(Command::Decompile(form, target)) => write_function(alloc, files, form, target, out),
        Some(Command::Run(target, steps, words)) => {
            write_run(alloc, files, target, steps, words, out)
        }
        Some(Command::Tidy(path)) => write_tidy(alloc, files, path, out),
        Some(Command::Drill(functions)) => write_drill(alloc, functions, out),
        Some(Command::Prelude) => write_header(out),
    }
}

/// The program: does what the words ask for, writes the output to `out`, and a note of every status but `Done` to
/// `notes`. A fault of `notes` changes no status.
pub fn dream<F: Files, K: Sink, E: Sink>(
    alloc: Global,
    words: &Vec<String>,
    files: &mut F,
    out: &mut K,
    notes: &mut E,
) -> Status
    ensures answer { Answers result
        (reading_of (F.held files.old) (F.faults files.old) (F.faults files.new) (F.got files.old) (F.got files.new))
        (writing_of (K.taken out.old) (K.taken out.new) (K.faults out.old) (K.faults out.new))
        (command_of (map string_bytes words.now.items)) }
    ensures note { Tells
        (writing_of (E.taken notes.old) (E.taken notes.new) (E.faults notes.old) (E.faults notes.new))
        (note_of result) }
{
    let status = work(alloc, words, files, out);
    tell(notes, status);
    status
}
