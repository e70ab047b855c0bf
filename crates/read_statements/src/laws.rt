//! Laws on the reading of a token.

ghost use Rattle.read_statements.specs.Reads.{AtTheEnd, CanGoOn, FromTheStart, OneToken};

/// A token is read exactly where what was read goes on with it, and then the tokens after it are
/// those with which it goes on.
pub fn one_token()
    ensures { OneToken }
{}

/// What was read can be completed.
pub fn can_go_on()
    ensures { CanGoOn }
{}

/// No token need follow exactly where what was read is a whole function.
pub fn at_the_end()
    ensures { AtTheEnd }
{}

/// At the start a function goes on with just its own tokens.
pub fn from_the_start()
    ensures { FromTheStart }
{}
