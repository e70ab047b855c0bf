//! Which names a function has.

ghost use Rattle.std.specs.Prelude.{◌≡◌};
ghost use Rattle.c_syntax.specs.Formed.{is_base as is_base_of, is_declared, is_target};
ghost use Rattle.read_words.specs.Turns.{scope};

use crate::open::Locals;
use dream_words::Name;

fn is_base(name: Name) -> bool
    ensures { result ≡ is_base_of name }
{
    match name {
        Name::Fs | Name::Gs => true,
        Name::Reg(_) | Name::Flag(_) | Name::T(_) | Name::B(_) | Name::S(_) => false,
    }
}

impl Locals {
    /// Whether the name may be read: it is a register, a flag, a base of a segment, or a local that
    /// is declared.
    pub fn declares(self, name: Name) -> bool
        ensures { result ≡ is_declared (scope self) name }
    {
        match name {
            Name::Reg(n) => n < 8,
            Name::Flag(n) => n < 5,
            Name::Fs | Name::Gs => true,
            Name::T(n) => n < self.temps,
            Name::B(n) => n < self.bools,
            Name::S(n) => n < self.selectors,
        }
    }

    /// Whether the name may be assigned: it may be read, and is no base of a segment.
    pub fn may_set(self, name: Name) -> bool
        ensures { result ≡ is_target (scope self) name }
    {
        self.declares(name) && !is_base(name)
    }
}
