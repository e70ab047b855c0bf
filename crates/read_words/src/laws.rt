//! Laws on the reading of a token.

ghost use Rattle.read_words.specs.Reads.{CanGoOn, FromTheStart, NotTheEnd, OneToken};

/// A token is read exactly where what was read goes on with it, and then the tokens after it are
/// those with which it goes on.
pub fn one_token()
    ensures { OneToken }
{}

/// What was read can be completed.
pub fn can_go_on()
    ensures { CanGoOn }
{}

/// What isn't whole doesn't end.
pub fn not_the_end()
    ensures { NotTheEnd }
{}

/// At the start a Word or Cond goes on with just the tokens of those that fit.
pub fn from_the_start()
    ensures { FromTheStart }
{}
