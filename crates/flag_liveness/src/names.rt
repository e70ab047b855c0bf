//! Names that a flow may set, and Words that are just a name.

ghost use Rattle.std.specs.Prelude.{◌≡◌};
ghost use Rattle.micro_ir.specs.Rule.{is_flow_target};
ghost use Rattle.flag_liveness.specs.Before.{is_itself};

use dream_words::Name;
use flow_passes::same_name;
use micro_ir::Expr;

/// Whether a flow may set a name.
pub(crate) fn is_flow_target(n: Name) -> bool
    ensures { result ≡ is_flow_target n }
{
    match n {
        Name::Reg(k) => k < 8,
        Name::Flag(k) => k < 5,
        Name::T(k) => k < 1 << 31,
        Name::Fs | Name::Gs | Name::B(_) | Name::S(_) => false,
    }
}

/// Whether a Word is just a name.
pub(crate) fn is_itself(m: Name, e: &Expr) -> bool
    ensures { result ≡ is_itself m e.now }
{
    match e {
        Expr::Name(n) => same_name(m, *n),
        _ => false,
    }
}
