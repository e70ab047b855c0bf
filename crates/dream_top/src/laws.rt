//! What follows from the meaning of the answers alone, each law the contract of a function without code.

ghost use Rattle.dream_top.specs.Laws.{NoRefusalWithoutCause, EachCauseHasItsAnswer};

use c_read::one_place;
use c_syntax::one_function;

/// A command whose file is accepted and whose range has no place outside the profile is done, unless a count of faults
/// rises or memory runs out.
pub fn no_refusal_without_cause()
    ensures { NoRefusalWithoutCause }
{}

/// Words that are no command, a path that holds nothing, a file that is too long or that breaks a rule, and a range with
/// a place outside the profile have their answers, unless the count of faults of the files rises or memory runs out.
/// After more bytes than the limit no fault changes the answer.
pub fn each_cause_has_its_answer()
    ensures { EachCauseHasItsAnswer }
{
    one_function();
    one_place();
}
