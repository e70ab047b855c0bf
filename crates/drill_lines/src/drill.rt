//! A drill, and the line of it.

ghost use Rattle.std.specs.Prelude.{◌≡◌, ◌≤◌, Ok, IfOk};
ghost use Rattle.std.specs.List.{AllZip};
ghost use Rattle.elf_image.specs.Image.{image_of};
ghost use Rattle.generators.specs.Code.{pieces};
ghost use Rattle.generators.specs.Files.{file_of};
ghost use Rattle.drill_lines.specs.Counts.{HasCountsIn};
ghost use Rattle.drill_lines.specs.Lines.{IsDrillLine};

use crate::line::{bytes_of, line, sums_of};
use crate::range_counts::{Counts, counts_of};
use elf_image::{Image, ImageFault, Range};
use generators::{drill_ranges, make_drill};
use std::alloc::{AllocError, Global};

// The image of the file of a drill, which has one.
fn drill_image(alloc: Global, n: u32) -> Result<Image, AllocError>
    requires some { 1 ≤ n }
    requires few { n ≤ 4000 }
    ensures { IfOk result (λ m. image_of (file_of (pieces n)) ≡ Ok m) }
{
    let file = make_drill(alloc, n)?;
    match Image::read(alloc, &file) {
        Ok(image) => Ok(image),
        Err(ImageFault::Memory) => Err(AllocError),
        Err(ImageFault::Elf(_fault)) => unreachable!(),
    }
}

// The counts of each range in turn.
fn counts_of_each(alloc: Global, m: &Image, ranges: &[Range]) -> Result<Vec<Counts>, AllocError>
    ensures { IfOk result (λ all. AllZip (HasCountsIn m.now) ranges.now all.items) }
{
    let mut all = Vec::new(alloc);
    for r in ranges {
        all.push(counts_of(alloc, m, r)?)?;
    }
    Ok(all)
}

/// The line of a drill of n functions.
pub fn drill_line(alloc: Global, n: u32) -> Result<Vec<u8>, AllocError>
    requires some { 1 ≤ n }
    requires few { n ≤ 4000 }
    ensures { IfOk result (λ text. IsDrillLine n text.items) }
{
    let image = drill_image(alloc, n)?;
    let ranges = drill_ranges(alloc, n)?;
    let all = counts_of_each(alloc, &image, &ranges)?;
    line(alloc, n, bytes_of(&ranges), sums_of(&all))
}
