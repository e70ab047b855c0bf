//! What holds of the definitions alone, each law the contract of a function without code.

ghost use Rattle.drill_lines.specs.Laws.{CodeHasImage, DrillHasImage};

/// The file of a code that isn't too long has an image.
pub fn code_has_image()
    ensures { CodeHasImage }
{}

/// The file of a drill has an image.
pub fn drill_has_image()
    ensures { DrillHasImage }
{}
