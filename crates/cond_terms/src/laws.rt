//! What holds of the definitions alone, each law the contract of a function without code.

ghost use Rattle.cond_terms.specs.Guards.{GuardsTell};
ghost use Rattle.cond_terms.specs.Laws.{TermsMeanSo};

/// The truth and the number of literals of each kind of term.
pub fn terms_mean_so()
    ensures { TermsMeanSo }
{}

/// Where the names of the earlier guards tell, a guard is true exactly where its node is taken.
pub fn guards_tell()
    ensures { GuardsTell }
{}
