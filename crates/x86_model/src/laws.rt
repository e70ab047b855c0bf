//! What holds of the definitions alone, each law the contract of a function without code.

ghost use Rattle.x86_model.specs.Laws.{PartsReadBack, PartsAreApart, ConditionsAreOpposite, ProductOverflowsByHalves, StraysSo};

/// A register that is written holds what was written, and the others of its size stay.
pub fn parts_are_apart()
    ensures read_back { PartsReadBack }
    ensures apart { PartsAreApart }
{}

/// Conditions come in pairs of opposites.
pub fn conditions_are_opposite()
    ensures { ConditionsAreOpposite }
{}

/// A signed product doesn't fit exactly where its high half isn't the sign of its low half.
pub fn product_overflows_by_halves()
    ensures { ProductOverflowsByHalves }
{}

/// A step is a stray exactly where it reads a flag that is undefined, or searches 0 for a bit.
pub fn strays_so()
    ensures { StraysSo }
{}
