//! Finding the function of a file.

ghost use Rattle.std.specs.Prelude.{◌≡◌, IfOk, IfErr};
ghost use Rattle.dream_top.specs.CommandLine.{func_said, target_said};
ghost use Rattle.dream_top.specs.Answers.{reading_of, Finds, range_in as range_in_bytes, Loads, Refuses};

use crate::load::load;
use crate::status::Status;
use crate::words::{Func, Target};
use dream_outside::Files;
use elf_image::{Image, Range};
use elf_symbols::{FindFault, function_named};
use std::alloc::Global;

/// A function that was found: the image of its file, and its addresses.
#[derive(Drop)]
pub struct Found {
    pub image: Image,
    pub range: Range,
}

// The range that FUNC says in a file's bytes.
fn range_in(bytes: &[u8], func: Func<'_>) -> Result<Range, FindFault>
    ensures { result ≡ range_in_bytes bytes.now (func_said func.entry) }
{
    match func {
        Func::At(range) => Ok(range),
        Func::Named(name) => function_named(bytes, name.as_bytes()),
    }
}

/// The function of the file at a path.
pub fn find<F: Files>(alloc: Global, files: &mut F, target: Target<'_>) -> Result<Found, Status>
    ensures ok { IfOk result (λ found. Loads
        (reading_of (F.held files.old) (F.faults files.old) (F.faults files.new) (F.got files.old) (F.got files.new))
        target.entry.path.now (λ bytes. Finds found.image bytes (func_said target.entry.func) found.range)) }
    ensures err { IfErr result (λ s. Refuses s
        (reading_of (F.held files.old) (F.faults files.old) (F.faults files.new) (F.got files.old) (F.got files.new))
        (target_said target.entry)) }
{
    let bytes = load(alloc, files, target.path)?;
    let image = Image::read(alloc, &bytes)?;
    let range = range_in(&bytes, target.func)?;
    Ok(Found { image, range })
}
