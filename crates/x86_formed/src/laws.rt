//! What holds of the definitions alone, the law the contract of a function without code.

ghost use Rattle.x86_formed.specs.Formed.{SpelledIsFormed};

/// An instruction that has a spelling is formed.
pub fn spelled_is_formed()
    ensures { SpelledIsFormed }
{}
