//! Tokens that are always spelled alike.

ghost use Rattle.std.specs.Prelude.{◌≡◌};
ghost use Rattle.read_statements.specs.Turns.{expect as expect_of, is_mark as is_mark_of};

use crate::open::Mark;
use c_syntax::Token;

/// Whether a token is this one.
fn is_mark(mark: Mark, token: Token) -> bool
    ensures { result ≡ is_mark_of mark token }
{
    match mark {
        Mark::Open => matches!(token, Token::Open),
        Mark::Close => matches!(token, Token::Close),
        Mark::Begin => matches!(token, Token::Begin),
        Mark::End => matches!(token, Token::End),
        Mark::Semicolon => matches!(token, Token::Semicolon),
        Mark::Colon => matches!(token, Token::Colon),
        Mark::Comma => matches!(token, Token::Comma),
        Mark::Assign => matches!(token, Token::Assign),
        Mark::While => matches!(token, Token::While),
        Mark::Break => matches!(token, Token::Break),
        Mark::Void => matches!(token, Token::Void),
        Mark::Zero => matches!(token, Token::Zero),
    }
}

/// What comes of it where just this token may come.
pub(crate) fn expect<T: Drop>(mark: Mark, then: T, token: Token) -> Option<T>
    ensures { result ≡ expect_of mark then token }
{
    if is_mark(mark, token) {
        Some(then)
    } else {
        None
    }
}
