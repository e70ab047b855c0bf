//! The words of the command line.

ghost use Rattle.std.specs.Prelude.{◌≡◌, ◌<◌, ℕ, map, string_bytes, IfSome, MatchOption};
ghost use Rattle.dream_top.specs.CommandLine.{hex_digit as hex_digit_of, hex_number as hex_number_of, sum_form as sum_form_of, address_form as address_form_of, func_of as func_of_word, func_said, target_said, form_named as form_named_of, function_at as function_at_of, function_asked as function_asked_of, run_asked as run_asked_of, drill_asked as drill_asked_of, tidy_at as tidy_at_of, tidy_asked as tidy_asked_of, is_prelude as asks_for_header, command_of, asked_by};

use dream_engine::Form;
use elf_image::Range;
use run_lines::{are_start_words, count};

/// Which function of a file is meant.
#[derive(Clone, Copy)]
pub enum Func<'a> {
    /// The one at these addresses.
    At(Range),
    /// The first one of this name among the symbols.
    Named(&'a str),
}

/// A function of the file at a path.
#[derive(Clone, Copy)]
pub struct Target<'a> {
    pub path: &'a str,
    pub func: Func<'a>,
}

/// What the words ask for.
#[derive(Clone, Copy)]
pub enum Command<'a> {
    /// The C of a function, in a form.
    Decompile(Form, Target<'a>),
    /// The runs of a function, of so many steps, from the start that words give.
    Run(Target<'a>, u32, &'a [String]),
    /// The canonical text of the text at a path.
    Tidy(&'a str),
    /// The line of a drill of so many functions.
    Drill(u32),
    /// The header that each text includes.
    Prelude,
}

// The value of a hexadecimal digit of either case.
fn hex_digit(byte: u8) -> Option<u8>
    ensures value { result ≡ hex_digit_of byte }
    ensures small { IfSome result (λ digit. digit < 16) }
{
    match byte {
        b'0'..=b'9' => Some(byte - b'0'),
        b'a'..=b'f' => Some(byte - b'a' + 10),
        b'A'..=b'F' => Some(byte - b'A' + 10),
        _ => None,
    }
}

// The value of one to eight hexadecimal digits.
fn hex_number(digits: &str) -> Option<u32>
    ensures { result ≡ hex_number_of digits.now }
{
    if digits.is_empty() || digits.len() > 8 {
        return None;
    }
    let mut value = 0;
    for byte in digits.as_bytes() {
        value = 16 * value + u32::from(hex_digit(*byte)?);
    }
    Some(value)
}

// An address and a size, with a `+` between them.
fn sum_form(sum: &str) -> Option<Range>
    ensures { result ≡ sum_form_of sum.now }
{
    let (entry, size) = sum.split_once('+')?;
    Some(Range::new(hex_number(entry)?, hex_number(size)?))
}

// The range of a FUNC that is an address form.
fn address_form(func: &str) -> Option<Range>
    ensures { result ≡ address_form_of func.now }
{
    sum_form(func.strip_prefix("0x")?)
}

// The form that a command's name asks for.
fn form_named(name: &str) -> Option<Form>
    ensures { result ≡ form_named_of name.now }
{
    if name == "decompile" {
        Some(Form::Structured)
    } else if name == "plain" {
        Some(Form::Plain)
    } else {
        None
    }
}

// What a FUNC says: the range of an address form, or else a name.
fn func_of(func: &str) -> Func<'_>
    ensures { func_said result ≡ func_of_word func.now }
{
    match address_form(func) {
        Some(range) => Func::At(range),
        None => Func::Named(func),
    }
}

// The function of a PATH and a FUNC.
fn function_at<'a>(path: &'a str, func: &'a str) -> Option<Target<'a>>
    ensures { MatchOption result (function_at_of path.now func.now ≡ None) (λ t. function_at_of path.now func.now ≡ Some (target_said t)) }
{
    if path.is_empty() || func.is_empty() {
        return None;
    }
    Some(Target {
        path,
        func: func_of(func),
    })
}

// The function that the words ask for, if they do.
fn function_asked(words: &[String]) -> Option<Command<'_>>
    ensures { MatchOption result (function_asked_of (map string_bytes words.now) ≡ None) (λ c. function_asked_of (map string_bytes words.now) ≡ Some (asked_by c)) }
{
    match words {
        [name, path, func] => {
            let form = form_named(name.as_str())?;
            let target = function_at(path.as_str(), func.as_str())?;
            Some(Command::Decompile(form, target))
        }
        _ => None,
    }
}

// The runs that the words ask for, if they do.
fn run_asked(words: &[String]) -> Option<Command<'_>>
    ensures { MatchOption result (run_asked_of (map string_bytes words.now) ≡ None) (λ c. run_asked_of (map string_bytes words.now) ≡ Some (asked_by c)) }
{
    match words {
        [name, path, func, n, rest @ ..] if name.as_str() == "run" && are_start_words(rest) => {
            let target = function_at(path.as_str(), func.as_str())?;
            let steps = count(n.as_str(), 0, 1_000_000)?;
            Some(Command::Run(target, steps, rest))
        }
        _ => None,
    }
}

// The drill that the words ask for, if they do.
fn drill_asked(words: &[String]) -> Option<Command<'_>>
    ensures { MatchOption result (drill_asked_of (map string_bytes words.now) ≡ None) (λ c. drill_asked_of (map string_bytes words.now) ≡ Some (asked_by c)) }
{
    match words {
        [name, n] if name.as_str() == "drill" => {
            let functions = count(n.as_str(), 1, 4_000)?;
            Some(Command::Drill(functions))
        }
        _ => None,
    }
}

// The text at a PATH.
fn tidy_at(path: &str) -> Option<Command<'_>>
    ensures { MatchOption result (tidy_at_of path.now ≡ None) (λ c. tidy_at_of path.now ≡ Some (asked_by c)) }
{
    if path.is_empty() {
        return None;
    }
    Some(Command::Tidy(path))
}

// The text that the words ask for, if they do.
fn tidy_asked(words: &[String]) -> Option<Command<'_>>
    ensures { MatchOption result (tidy_asked_of (map string_bytes words.now) ≡ None) (λ c. tidy_asked_of (map string_bytes words.now) ≡ Some (asked_by c)) }
{
    match words {
        [name, path] if name.as_str() == "tidy" => tidy_at(path.as_str()),
        _ => None,
    }
}

// Whether the words ask for the header.
fn is_prelude(words: &[String]) -> bool
    ensures { result ≡ asks_for_header (map string_bytes words.now) }
{
    match words {
        [name] => name.as_str() == "prelude",
        _ => false,
    }
}

/// The command that the words are, if they are one.
pub fn command_in(words: &[String]) -> Option<Command<'_>>
    ensures { MatchOption result (command_of (map string_bytes words.now) ≡ None) (λ c. command_of (map string_bytes words.now) ≡ Some (asked_by c)) }
{
    if is_prelude(words) {
        Some(Command::Prelude)
    } else if let Some(command) = function_asked(words) {
        Some(command)
    } else if let Some(command) = run_asked(words) {
        Some(command)
    } else if let Some(command) = tidy_asked(words) {
        Some(command)
    } else {
        drill_asked(words)
    }
}
