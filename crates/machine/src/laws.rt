//! What holds of the definitions alone, each law the contract of a function without code.

ghost use Rattle.machine.specs.Laws.{EveryRangeDecodes, OutcomesStay, StrayingIsExact};
ghost use Rattle.machine.specs.Free.{AllPagesAreFree};

use dream_words::all_pages_allow_all;
use x86_model::strays_so;

/// Every range has its instructions, so what is said of a machine that has them is said of one that there is.
pub fn every_range_decodes()
    ensures { EveryRangeDecodes }
{}

/// A run that is over stays as it is, however many steps more it may take.
pub fn outcomes_stay()
    ensures { OutcomesStay }
{}

/// A step strays exactly where one of six things happens, and never else.
pub fn straying_is_exact()
    ensures { StrayingIsExact }
{
    strays_so();
}

/// Where all pages are allowed the run is that of a machine without rights to pages.
pub fn all_pages_are_free()
    ensures { AllPagesAreFree }
{
    all_pages_allow_all();
}
