//! Words that are numbers.

ghost use Rattle.word_rules.specs.Numbers.{IsNumber};

use c_syntax::CExpr;

/// The number that a Word is, if it is one.
pub(crate) fn number(e: &CExpr) -> Option<u32>
    ensures { IsNumber e.now result }
{
    match e {
        CExpr::Num(n) => Some(*n),
        _ => None,
    }
}
