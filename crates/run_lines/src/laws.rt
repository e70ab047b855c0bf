//! What holds of the definitions alone, each law the contract of a function without code.

ghost use Rattle.run_lines.specs.Laws.{FilesHoldBytes, StartsAreStarts};

/// The image of a file of bytes has bytes.
pub fn files_hold_bytes()
    ensures { FilesHoldBytes }
{}

/// What words give is a start of the machine, over an image of bytes.
pub fn starts_are_starts()
    ensures { StartsAreStarts }
{}
