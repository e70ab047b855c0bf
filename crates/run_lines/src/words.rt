//! What words of the command line say of a start.

ghost use Rattle.std.specs.Prelude.{◌≡◌, ◌==◌, map, string_bytes};
ghost use Rattle.std.specs.List.{before_first, after_first};
ghost use Rattle.run_lines.specs.Numbers.{value_of};
ghost use Rattle.run_lines.specs.StartWords.{register_of, said, start_word_of, are_start_words as are_start_words_of};

use crate::numbers::value;

// The most words that a start may be given.
const LIMIT: usize = 64;

/// What a word says of a start.
#[derive(Clone, Copy, Debug, PartialEq, Eq)]
pub enum StartWord {
    /// The register of a number is set to a value.
    Register(u8, u32),
    /// The next argument is a value.
    Argument(u32),
}

// The number of the register of a name.
fn register(name: &str) -> Option<u8>
    ensures { result ≡ register_of name.now }
{
    if name == "eax" {
        Some(0)
    } else if name == "ecx" {
        Some(1)
    } else if name == "edx" {
        Some(2)
    } else if name == "ebx" {
        Some(3)
    } else if name == "esp" {
        Some(4)
    } else if name == "ebp" {
        Some(5)
    } else if name == "esi" {
        Some(6)
    } else if name == "edi" {
        Some(7)
    } else {
        None
    }
}

// What a word says that has no value as a whole.
fn register_word(word: &str) -> Option<StartWord>
    ensures { result ≡ said None (value_of (after_first (λ b. b == 61) word.now)) (register_of (before_first (λ b. b == 61) word.now)) }
{
    let (name, text) = word.split_once('=')?;
    let value = value(text)?;
    Some(StartWord::Register(register(name)?, value))
}

/// What a word says: a value is the next argument, and `NAME=VALUE` sets the register of the name.
pub fn start_word(word: &str) -> Option<StartWord>
    ensures { result ≡ start_word_of word.now }
{
    match value(word) {
        Some(value) => Some(StartWord::Argument(value)),
        None => register_word(word),
    }
}

/// Each of the words says something, and there are at most 64.
pub fn are_start_words(words: &[String]) -> bool
    ensures { result ≡ are_start_words_of (map string_bytes words.now) }
{
    if words.len() > LIMIT {
        return false;
    }
    for word in words {
        if start_word(word.as_str()).is_none() {
            return false;
        }
    }
    true
}
