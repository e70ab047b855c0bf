//! What holds of the definitions alone, the law the contract of a function without code.

ghost use Rattle.jump_tables.specs.Laws.{OneWindow};

/// At most one window stands at an address.
pub fn one_window()
    ensures { OneWindow }
{}
