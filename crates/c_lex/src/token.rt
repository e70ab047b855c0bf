//! The token that some bytes spell.

ghost use Rattle.std.specs.Prelude.{◌≡◌};
ghost use Rattle.c_lex.specs.Candidates as by_bytes;
ghost use Rattle.c_lex.specs.Lexemes.{IsTokenOf};

use crate::bytes::is_digit;
use crate::numbers::read;
use crate::spelled::is_spelled;
use c_syntax::{CBin, CCmp, CFn1, CFn2, CFn3, Token};
use dream_words::{Name, Width};

/// The tokens of one spelling each.
pub(crate) const FIXED: [Token; 76] = [
    Token::Open,
    Token::Close,
    Token::Begin,
    Token::End,
    Token::Semicolon,
    Token::Colon,
    Token::Comma,
    Token::Question,
    Token::Assign,
    Token::Tilde,
    Token::Bang,
    Token::Both,
    Token::Either,
    Token::Ext,
    Token::Trap,
    Token::If,
    Token::Else,
    Token::Switch,
    Token::Case,
    Token::Default,
    Token::While,
    Token::Do,
    Token::Break,
    Token::Return,
    Token::Void,
    Token::Uint32,
    Token::Zero,
    Token::One,
    Token::Op(CBin::Add),
    Token::Op(CBin::Sub),
    Token::Op(CBin::Mul),
    Token::Op(CBin::And),
    Token::Op(CBin::Or),
    Token::Op(CBin::Xor),
    Token::Op(CBin::Shl),
    Token::Op(CBin::Shr),
    Token::Compare(CCmp::Eq),
    Token::Compare(CCmp::Ne),
    Token::Compare(CCmp::Lt),
    Token::Compare(CCmp::Le),
    Token::Fn1(CFn1::Sx1),
    Token::Fn1(CFn1::Sx2),
    Token::Fn1(CFn1::Par),
    Token::Fn1(CFn1::Bsf),
    Token::Fn1(CFn1::Bsr),
    Token::Fn2(CFn2::Sar),
    Token::Fn2(CFn2::Lts),
    Token::Fn2(CFn2::Mulhu),
    Token::Fn2(CFn2::Mulhs),
    Token::Fn3(CFn3::Divubad),
    Token::Fn3(CFn3::Divuq),
    Token::Fn3(CFn3::Divur),
    Token::Fn3(CFn3::Divsbad),
    Token::Fn3(CFn3::Divsq),
    Token::Fn3(CFn3::Divsr),
    Token::Ld(Width::B),
    Token::Ld(Width::H),
    Token::Ld(Width::W),
    Token::St(Width::B),
    Token::St(Width::H),
    Token::St(Width::W),
    Token::Name(Name::Reg(0)),
    Token::Name(Name::Reg(1)),
    Token::Name(Name::Reg(2)),
    Token::Name(Name::Reg(3)),
    Token::Name(Name::Reg(4)),
    Token::Name(Name::Reg(5)),
    Token::Name(Name::Reg(6)),
    Token::Name(Name::Reg(7)),
    Token::Name(Name::Flag(0)),
    Token::Name(Name::Flag(1)),
    Token::Name(Name::Flag(2)),
    Token::Name(Name::Flag(3)),
    Token::Name(Name::Flag(4)),
    Token::Name(Name::Fs),
    Token::Name(Name::Gs),
];

/// The first of several tokens that is spelled so.
fn find(tokens: &[Token], bytes: &[u8]) -> Option<Token>
    ensures { result ≡ by_bytes.find tokens.now bytes.now }
{
    for token in tokens {
        if is_spelled(*token, bytes) {
            return Some(*token);
        }
    }
    None
}

/// A local, by the letter of its kind and its number.
fn local(letter: u8, n: u32) -> Name
    ensures { result ≡ by_bytes.local letter n }
{
    match letter {
        b't' => Name::T(n),
        b'b' => Name::B(n),
        _ => Name::S(n),
    }
}

/// The one token that the bytes may spell, by the first two of them.
fn candidate(bytes: &[u8]) -> Option<Token>
    ensures { result ≡ by_bytes.candidate bytes.now }
{
    if bytes.len() < 2 {
        return find(&FIXED, bytes);
    }
    match (bytes[0], bytes[1]) {
        (b'0', b'x') => Some(Token::Num(read(16, &bytes[2..]))),
        (b'f', b'_') => Some(Token::Function(read(16, &bytes[2..]))),
        (letter, digit) if is_digit(digit) => {
            Some(Token::Name(local(letter, read(10, &bytes[1..]))))
        }
        _ => find(&FIXED, bytes),
    }
}

/// The token that some bytes spell, or none where no token is spelled so.
pub fn token_of(bytes: &[u8]) -> Option<Token>
    ensures { IsTokenOf bytes.now result }
{
    let token = candidate(bytes)?;
    if is_spelled(token, bytes) {
        Some(token)
    } else {
        None
    }
}
