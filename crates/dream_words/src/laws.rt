//! What holds of the definitions alone, each law the contract of a function without code.

ghost use Rattle.dream_words.specs.Agreement.{AgreementsCompose};
ghost use Rattle.dream_words.specs.Pages.{AllPagesAllowAll, FirstBadIsExact};

/// What agrees with a meaning agrees with what follows that meaning.
pub fn agreements_compose()
    ensures { AgreementsCompose }
{}

/// Where all pages are allowed no access is refused.
pub fn all_pages_allow_all()
    ensures { AllPagesAllowAll }
{}

/// The byte that is told is the first one of an access that isn't allowed.
pub fn first_bad_is_exact()
    ensures { FirstBadIsExact }
{}
