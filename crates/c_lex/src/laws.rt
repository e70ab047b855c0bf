//! Laws on the tokens that may stand in a text.

ghost use Rattle.c_lex.specs.Laws.{FunctionTokens, OneSpelling};

/// No two tokens are spelled alike.
pub fn one_spelling()
    ensures { OneSpelling }
{}

/// The tokens of a well-formed function may stand in a text.
pub fn function_tokens()
    ensures { FunctionTokens }
{}
