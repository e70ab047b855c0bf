//! Which bytes make a token longer.

ghost use Rattle.std.specs.Prelude.{◌≡◌};
ghost use Rattle.c_syntax.specs.Lex as lex;

pub(crate) fn is_digit(b: u8) -> bool
    ensures { result ≡ lex.is_digit b }
{
    48 <= b && b <= 57
}

fn is_letter(b: u8) -> bool
    ensures { result ≡ lex.is_letter b }
{
    (97 <= b && b <= 122) || (65 <= b && b <= 90)
}

fn begins_word(b: u8) -> bool
    ensures { result ≡ lex.begins_word b }
{
    is_letter(b) || b == 95
}

pub(crate) fn is_blank(b: u8) -> bool
    ensures { result ≡ lex.is_blank b }
{
    b == 32 || (b == 9 || (b == 13 || b == 10))
}

/// Whether two bytes are a mark: `==`, `!=`, `<=`, `<<`, `>>`, `&&` or `||`.
fn is_pair(a: u8, b: u8) -> bool
    ensures { result ≡ lex.is_pair a b }
{
    (a == 61 && b == 61)
        || ((a == 33 && b == 61)
            || ((a == 60 && b == 61)
                || ((a == 60 && b == 60)
                    || ((a == 62 && b == 62) || ((a == 38 && b == 38) || (a == 124 && b == 124))))))
}

/// Whether a byte makes a token longer.
pub(crate) fn extends(token: &[u8], b: u8) -> bool
    ensures { result ≡ lex.extends token.now b }
{
    let Some((first, more)) = token.split_first() else {
        return false;
    };
    if begins_word(*first) {
        begins_word(b) || is_digit(b)
    } else if is_digit(*first) {
        is_letter(b) || is_digit(b)
    } else {
        more.is_empty() && is_pair(*first, b)
    }
}
