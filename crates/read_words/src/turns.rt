//! What a token makes of the innermost part of a Word or Cond.

ghost use Rattle.std.specs.Prelude.{◌≡◌, IfOk};
ghost use Rattle.read_words.specs.Turns.{after as after_of, after_cond as after_cond_of, after_word as after_word_of, argument as argument_of, at_close as at_close_of, at_colon as at_colon_of, at_comma as at_comma_of, begin as begin_of, called as called_of, cond_sign as cond_sign_of, first as first_of, opens as opens_of, paren as paren_of, staying as staying_of, stays as stays_of, takes_cond as takes_cond_of, takes_word as takes_word_of, turn as turn_of, word_sign as word_sign_of};

use crate::open::{Call, Item, Locals, Open, State, Turn, Wanted};
use c_syntax::{CCond, CExpr, Token};
use c_words::{and, bin, cmp, cond_not, fn1, fn2, fn3, name, num, or, pick, word_not};
use std::alloc::{AllocError, Global};

/// Whether a Word may stand where this is wanted.
fn takes_word(wanted: Wanted) -> bool
    ensures { result ≡ takes_word_of wanted }
{
    match wanted {
        Wanted::Word | Wanted::Either => true,
        Wanted::Cond => false,
    }
}

/// Whether a Cond may stand where this is wanted.
fn takes_cond(wanted: Wanted) -> bool
    ensures { result ≡ takes_cond_of wanted }
{
    match wanted {
        Wanted::Cond | Wanted::Either => true,
        Wanted::Word => false,
    }
}

/// The part goes on, with nothing round it that wasn't there.
fn stays(state: State) -> Turn
    ensures { result ≡ stays_of state }
{
    Turn { round: None, state }
}

/// A part begins inside an open one.
fn opens(round: Open, state: State) -> Turn
    ensures { result ≡ opens_of round state }
{
    Turn {
        round: Some(round),
        state,
    }
}

/// The first token of a part, where so much depth is left.
fn begin(locals: Locals, wanted: Wanted, left: usize, token: Token) -> Option<State>
    ensures { result ≡ begin_of locals wanted left token }
{
    match token {
        Token::Num(n) if takes_word(wanted) => Some(State::Have(Item::Word(num(n)))),
        Token::Name(n) if takes_word(wanted) && locals.declares(n) => {
            Some(State::Have(Item::Word(name(n))))
        }
        Token::Fn1(f) if takes_word(wanted) && left >= 2 => Some(State::Call(Call::One(f))),
        Token::Fn2(f) if takes_word(wanted) && left >= 2 => Some(State::Call(Call::Two(f))),
        Token::Fn3(f) if takes_word(wanted) && left >= 2 => Some(State::Call(Call::Three(f))),
        Token::Open if left >= 2 => Some(State::Paren(wanted)),
        _ => None,
    }
}

/// The token after `(`.
fn paren(locals: Locals, wanted: Wanted, left: usize, token: Token) -> Option<Turn>
    ensures { result ≡ paren_of locals wanted left token }
{
    match token {
        Token::Tilde if takes_word(wanted) => Some(opens(Open::NotWord, State::Want(Wanted::Word))),
        Token::Bang if takes_cond(wanted) && left >= 3 => {
            Some(opens(Open::NotCond, State::Want(Wanted::Cond)))
        }
        Token::Tilde | Token::Bang => None,
        _ => {
            let state = begin(locals, Wanted::Either, left.saturating_sub(1), token)?;
            Some(opens(Open::First(wanted), state))
        }
    }
}

/// A function's first argument.
fn argument(call: Call) -> Open
    ensures { result ≡ argument_of call }
{
    match call {
        Call::One(f) => Open::One(f),
        Call::Two(f) => Open::TwoFirst(f),
        Call::Three(f) => Open::ThreeFirst(f),
    }
}

/// The token after a function's name.
fn called(call: Call, token: Token) -> Option<Turn>
    ensures { result ≡ called_of call token }
{
    match token {
        Token::Open => Some(opens(argument(call), State::Want(Wanted::Word))),
        _ => None,
    }
}

/// The token after a part that isn't whole.
pub(crate) fn turn(locals: Locals, left: usize, state: State, token: Token) -> Option<Turn>
    ensures { result ≡ turn_of locals left state token }
{
    match state {
        State::Want(wanted) => Some(stays(begin(locals, wanted, left, token)?)),
        State::Paren(wanted) => paren(locals, wanted, left, token),
        State::Call(call) => called(call, token),
        State::Have(_) => None,
    }
}

/// Where `)` must come after a Word or Cond that is whole with it.
fn at_close(item: Item, token: Token) -> Option<Turn>
    ensures { result ≡ at_close_of item token }
{
    match token {
        Token::Close => Some(stays(State::Have(item))),
        _ => None,
    }
}

/// Where `,` must come.
fn at_comma(round: Open, token: Token) -> Option<Turn>
    ensures { result ≡ at_comma_of round token }
{
    match token {
        Token::Comma => Some(opens(round, State::Want(Wanted::Word))),
        _ => {
            drop(round);
            None
        }
    }
}

/// Where `:` must come.
fn at_colon(round: Open, token: Token) -> Option<Turn>
    ensures { result ≡ at_colon_of round token }
{
    match token {
        Token::Colon => Some(opens(round, State::Want(Wanted::Word))),
        _ => {
            drop(round);
            None
        }
    }
}

/// The sign after a first Word.
fn word_sign(wanted: Wanted, a: CExpr, token: Token) -> Option<Turn>
    ensures { result ≡ word_sign_of wanted a token }
{
    match token {
        Token::Op(op) if takes_word(wanted) => {
            Some(opens(Open::Bin(op, a), State::Want(Wanted::Word)))
        }
        Token::Compare(op) if takes_cond(wanted) => {
            Some(opens(Open::Cmp(op, a), State::Want(Wanted::Word)))
        }
        _ => None,
    }
}

/// The sign after a first Cond.
fn cond_sign(wanted: Wanted, c: CCond, token: Token) -> Option<Turn>
    ensures { result ≡ cond_sign_of wanted c token }
{
    match token {
        Token::Question if takes_word(wanted) => {
            Some(opens(Open::PickFirst(c), State::Want(Wanted::Word)))
        }
        Token::Both if takes_cond(wanted) => Some(opens(Open::And(c), State::Want(Wanted::Cond))),
        Token::Either if takes_cond(wanted) => Some(opens(Open::Or(c), State::Want(Wanted::Cond))),
        _ => None,
    }
}

/// The token after a Word that is whole inside an open part.
fn after_word(
    alloc: Global,
    round: Open,
    a: CExpr,
    token: Token,
) -> Result<Option<Turn>, AllocError>
    ensures { IfOk result (λ t. t ≡ after_word_of round a token) }
{
    match round {
        Open::NotWord => Ok(at_close(Item::Word(word_not(alloc, a)?), token)),
        Open::First(wanted) => Ok(word_sign(wanted, a, token)),
        Open::Bin(op, first) => Ok(at_close(Item::Word(bin(alloc, op, first, a)?), token)),
        Open::Cmp(op, first) => Ok(at_close(Item::Cond(cmp(op, first, a)), token)),
        Open::PickFirst(c) => Ok(at_colon(Open::PickSecond(c, a), token)),
        Open::PickSecond(c, first) => { Ok(at_close(Item::Word(pick(alloc, c, first, a)?), token)) }
        Open::One(f) => Ok(at_close(Item::Word(fn1(alloc, f, a)?), token)),
        Open::TwoFirst(f) => Ok(at_comma(Open::TwoSecond(f, a), token)),
        Open::TwoSecond(f, first) => Ok(at_close(Item::Word(fn2(alloc, f, first, a)?), token)),
        Open::ThreeFirst(f) => Ok(at_comma(Open::ThreeSecond(f, a), token)),
        Open::ThreeSecond(f, first) => Ok(at_comma(Open::ThreeThird(f, first, a), token)),
        Open::ThreeThird(f, first, second) => {
            Ok(at_close(Item::Word(fn3(alloc, f, first, second, a)?), token))
        }
        Open::NotCond | Open::And(_) | Open::Or(_) => Ok(None),
    }
}

/// The token after a Cond that is whole inside an open part.
fn after_cond(
    alloc: Global,
    round: Open,
    c: CCond,
    token: Token,
) -> Result<Option<Turn>, AllocError>
    ensures { IfOk result (λ t. t ≡ after_cond_of round c token) }
{
    match round {
        Open::NotCond => Ok(at_close(Item::Cond(cond_not(alloc, c)?), token)),
        Open::First(wanted) => Ok(cond_sign(wanted, c, token)),
        Open::And(first) => Ok(at_close(Item::Cond(and(alloc, first, c)?), token)),
        Open::Or(first) => Ok(at_close(Item::Cond(or(alloc, first, c)?), token)),
        other => {
            drop(other);
            Ok(None)
        }
    }
}

/// The token after a Word or Cond that is whole inside an open part.
pub(crate) fn after(
    alloc: Global,
    round: Open,
    item: Item,
    token: Token,
) -> Result<Option<Turn>, AllocError>
    ensures { IfOk result (λ t. t ≡ after_of round item token) }
{
    match item {
        Item::Word(a) => after_word(alloc, round, a, token),
        Item::Cond(c) => after_cond(alloc, round, c, token),
    }
}
