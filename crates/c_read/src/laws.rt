//! What follows from the meaning of the answers alone.

ghost use Rattle.c_read.specs.Answers.{OnePlace, PrintsReadBack, ReadsExactly};

use c_syntax::{canonical_stands, one_function};

/// A text is refused at one place.
pub fn one_place()
    ensures { OnePlace }
{}

/// A text that stands for a function is read as that function, unless memory runs out.
pub fn reads_exactly()
    ensures { ReadsExactly }
{
    one_function();
}

/// The canonical text of a well-formed function is read as that function, unless memory runs out.
pub fn prints_read_back()
    ensures { PrintsReadBack }
{
    canonical_stands();
    reads_exactly();
}
