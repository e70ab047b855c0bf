//! Reading a text, token by token.

ghost use Rattle.std.specs.Prelude.{◌≡◌, IfOk, option_map};
ghost use Rattle.std.specs.Option.{option_and_then};
ghost use Rattle.read_statements.specs.Turns.{step_of};
ghost use Rattle.read_statements.specs.Readers.{state_of};
ghost use Rattle.c_read.specs.declared.text.TextFault.TheVariants.{Memory};
ghost use Rattle.c_read.specs.Answers.{IsAnswer, IsRestAnswer, missing_at};

use c_lex::next_lexeme;
use c_syntax::{CFun, Token, canonical_stands};
use read_statements::Reader;
use std::alloc::{AllocError, Global};

/// The first line of every text (C99 6.10.2).
const INCLUDE_LINE: &[u8] = b"#include \"dream386.h\"\n";

/// Why a text isn't read.
#[derive(Clone, Copy, Drop)]
pub enum TextFault {
    /// It stands for no function: at this byte, counted from 0, the first token begins with which no
    /// text of the profile goes on; or the text ends there, too early.
    At(u64),
    /// There isn't enough memory.
    Memory,
}

impl From<AllocError> for TextFault {
    ghost from_gives = { λ _ fault. fault ≡ Memory };

    fn from(_: AllocError) -> TextFault {
        TextFault::Memory
    }
}

/// Where a text without the include line is refused.
fn without_include_line(text: &[u8]) -> usize
    ensures { result ≡ missing_at text.now }
{
    if INCLUDE_LINE.starts_with(text) {
        text.len()
    } else {
        0
    }
}

/// One token more; none where no function goes on with it, or the bytes spell no token.
fn read_token(
    alloc: Global,
    reader: Reader,
    token: Option<Token>,
) -> Result<Option<Reader>, AllocError>
    ensures { IfOk result (λ r. option_map state_of r ≡ option_and_then (step_of (state_of reader)) token) }
{
    match token {
        None => Ok(None),
        Some(token) => reader.step(alloc, token),
    }
}

/// Reads what comes after the include line.
fn read_rest(alloc: Global, rest: &[u8]) -> Result<CFun, TextFault>
    ensures { IsRestAnswer rest.now result }
{
    canonical_stands();
    let mut reader = Reader::new();
    let mut from = 0;
    while let Some(lexeme) = next_lexeme(rest, from) {
        let Some(next) = read_token(alloc, reader, lexeme.token)? else {
            return Err(TextFault::At((INCLUDE_LINE.len() + lexeme.at) as u64));
        };
        reader = next;
        from = lexeme.end;
    }
    match reader.finish() {
        Some(function) => Ok(function),
        None => Err(TextFault::At((INCLUDE_LINE.len() + rest.len()) as u64)),
    }
}

/// The function for which a text stands; or the first place where it can't be one of the profile,
/// exactly where it stands for none.
pub fn read(alloc: Global, text: &[u8]) -> Result<CFun, TextFault>
    ensures { IsAnswer text.now result }
{
    match text.strip_prefix(INCLUDE_LINE) {
        None => Err(TextFault::At(without_include_line(text) as u64)),
        Some(rest) => read_rest(alloc, rest),
    }
}
