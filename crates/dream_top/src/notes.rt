//! The note of a status.

ghost use Rattle.std.specs.Prelude.{◌≡◌};
ghost use Rattle.std.specs.List.{flat_map};
ghost use Rattle.dream_top.specs.Answers.{writing_of, Tells};
ghost use Rattle.dream_top.specs.Notes.{kind_name as name_of_kind, cause_name as name_of_cause, note_of};

use crate::status::Status;
use crate::writing::{put_all, put_pieces};
use c_print::eight_digits;
use dream_outside::Sink;
use elf_image::ElfFault;
use flow_graph::{Cause, Place};
use itoa::Buffer;

// The commands. Those that don't exist yet are named too, and answered by this note.
const USAGE: &str =
    "dream: usage: decompile PATH FUNC, plain PATH FUNC, run PATH FUNC N WORDS, tidy PATH, drill N, prelude\n";

// What is wrong with a file. No other number is a kind.
fn kind_name(kind: u8) -> &'static str
    ensures { result.now ≡ name_of_kind kind }
{
    match kind {
        1 => "Short",
        2 => "Magic",
        3 => "Class",
        4 => "Order",
        5 => "Version",
        6 => "Type",
        7 => "Machine",
        8 => "EntrySize",
        9 => "TableOutside",
        10 => "SegmentOutside",
        11 => "Overlap",
        12 => "SectionOutside",
        _ => "",
    }
}

// Why a place is outside the profile.
fn cause_name(cause: Cause) -> &'static str
    ensures { result.now ≡ name_of_cause cause }
{
    match cause {
        Cause::Instruction => "Instruction",
        Cause::Straddle => "Straddle",
        Cause::IndirectJump => "IndirectJump",
        Cause::CallInside => "CallInside",
        Cause::RangeEmpty => "RangeEmpty",
        Cause::RangeTooLarge => "RangeTooLarge",
        Cause::RangeUnbacked => "RangeUnbacked",
    }
}

// Tells a line of one piece. A fault of the stream is passed over.
fn tell_line<E: Sink>(notes: &mut E, line: &str)
    ensures { Tells
        (writing_of (E.taken notes.old) (E.taken notes.new) (E.faults notes.old) (E.faults notes.new))
        line.now }
{
    let _ = put_all(notes, line.as_bytes());
}

// Tells what is wrong with a file, and at which of its bytes.
fn tell_fault<E: Sink>(notes: &mut E, fault: ElfFault)
    ensures { Tells
        (writing_of (E.taken notes.old) (E.taken notes.new) (E.faults notes.old) (E.faults notes.new))
        (note_of (Status.NotElf fault)) }
{
    let _ = put_pieces(
        notes,
        &[
            b"dream: not an accepted ELF file: ",
            kind_name(fault.kind).as_bytes(),
            b" at ",
            Buffer::new().format(fault.at).as_bytes(),
            b"\n",
        ],
    );
}

// Tells the place that is outside the profile.
fn tell_place<E: Sink>(notes: &mut E, place: Place)
    ensures { Tells
        (writing_of (E.taken notes.old) (E.taken notes.new) (E.faults notes.old) (E.faults notes.new))
        (note_of (Status.Outside place)) }
{
    let _ = put_pieces(
        notes,
        &[
            b"dream: outside the profile: ",
            cause_name(place.cause).as_bytes(),
            b" at 0x",
            &eight_digits(place.at),
            b"\n",
        ],
    );
}

// Tells from which byte on a text is none of the profile.
fn tell_text<E: Sink>(notes: &mut E, at: u64)
    ensures { Tells
        (writing_of (E.taken notes.old) (E.taken notes.new) (E.faults notes.old) (E.faults notes.new))
        (note_of (Status.NotProfile at)) }
{
    let _ = put_pieces(
        notes,
        &[
            b"dream: not a profile text at ",
            Buffer::new().format(at).as_bytes(),
            b"\n",
        ],
    );
}

/// Tells the note of a status; that of `Done` is empty. A fault of the stream is passed over.
pub fn tell<E: Sink>(notes: &mut E, status: Status)
    ensures { Tells
        (writing_of (E.taken notes.old) (E.taken notes.new) (E.faults notes.old) (E.faults notes.new))
        (note_of status) }
{
    match status {
        Status::Done => tell_line(notes, ""),
        Status::Usage => tell_line(notes, USAGE),
        Status::ReadFault => tell_line(notes, "dream: read fault\n"),
        Status::WriteFault => tell_line(notes, "dream: write fault\n"),
        Status::NoMemory => tell_line(notes, "dream: no memory\n"),
        Status::NotElf(fault) => tell_fault(notes, fault),
        Status::NoFunction => tell_line(notes, "dream: no such function\n"),
        Status::Outside(place) => tell_place(notes, place),
        Status::FileTooLarge => tell_line(notes, "dream: file too large\n"),
        Status::NotProfile(at) => tell_text(notes, at),
    }
}
