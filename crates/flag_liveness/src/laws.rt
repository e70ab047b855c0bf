//! What holds of the definitions alone, each law the contract of a function without code.

ghost use Rattle.flag_liveness.specs.Laws.{CleaningKeeps};

/// What nobody sees may be dropped, by any closed sets of live names.
pub fn cleaning_keeps()
    ensures { CleaningKeeps }
{}
