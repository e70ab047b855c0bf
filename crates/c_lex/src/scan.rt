//! Where tokens begin and end.

ghost use Rattle.std.specs.Prelude.{◌≡◌, ◌<◌, ◌≤◌, false, length, drop, slice_index, slice_range, [], ◌∷◌};
ghost use Rattle.c_syntax.specs.Lex as lex;
ghost use Rattle.c_lex.specs.Lexemes.{IsNext, places};

use crate::bytes::{extends, is_blank};
use crate::token::token_of;
use c_syntax::Token;

/// A token of a text: where its bytes begin and where they have ended, and which token of the profile
/// they spell; none where no token is spelled so.
#[derive(Clone, Copy)]
pub struct Lexeme {
    pub at: usize,
    pub end: usize,
    pub token: Option<Token>,
}

/// The next token from a place on, or none where only blanks are left.
pub fn next_lexeme(text: &[u8], from: usize) -> Option<Lexeme>
    requires { from ≤ length text.now }
    ensures { IsNext text.now from result }
{
    let at = skip_blanks(text, from);
    if at == text.len() {
        return None;
    }
    let end = token_end(text, at);
    Some(Lexeme {
        at,
        end,
        token: token_of(&text[at..end]),
    })
}

/// Where the next byte that isn't a blank stands.
fn skip_blanks(text: &[u8], from: usize) -> usize
    requires { from ≤ length text.now }
    ensures after { from ≤ result }
    ensures inside { result ≤ length text.now }
    ensures tokens { lex.tokens_in (drop from text.now) ≡ lex.tokens_in (drop result text.now) }
    ensures places { places [] from (drop from text.now) ≡ places [] result (drop result text.now) }
    ensures stops { result < length text.now → lex.is_blank (slice_index text.now result) ≡ false }
{
    for at in from..text.len() {
        if !is_blank(text[at]) {
            return at;
        }
    }
    text.len()
}

/// Where the token that begins at a place has ended.
fn token_end(text: &[u8], at: usize) -> usize
    requires inside { at < length text.now }
    requires begins { lex.is_blank (slice_index text.now at) ≡ false }
    ensures long { at < result }
    ensures inside { result ≤ length text.now }
    ensures tokens { lex.tokens_in (drop at text.now) ≡ slice_range text.now at result ∷ lex.tokens_in (drop result text.now) }
    ensures places { places [] at (drop at text.now) ≡ at ∷ places [] result (drop result text.now) }
{
    for end in at + 1..text.len() {
        if !extends(&text[at..end], text[end]) {
            return end;
        }
    }
    text.len()
}
