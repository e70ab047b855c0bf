//! A function that is being read.

ghost use Rattle.std.specs.Prelude.{◌≡◌, true, IfOk, option_map};
ghost use Rattle.read_statements.specs.Turns.{at_function as at_function_of, at_local as at_local_of, became as became_of, decl_step as decl_step_of, head_step as head_step_of, may_declare as may_declare_of, next_decl as next_decl_of, start, step_of, with_local as with_local_of};
ghost use Rattle.read_statements.specs.Readers.{outcome_of, state_of, whole_of};

use crate::body::{Body, Outcome};
use crate::marks::expect;
use crate::open::{Decl, Head, Mark};
use c_syntax::{CFun, Token};
use dream_words::Name;
use read_words::Locals;
use std::alloc::{AllocError, Global};

/// What has been read of a function.
#[derive(Drop)]
pub enum Reader {
    /// A front of its head.
    Begun(Head),
    /// Its address and some of its declarations, up to a place.
    Declaring(u32, Locals, Decl),
    /// Its address, its declarations and some of its Bodies.
    Within(u32, Locals, Body),
    /// All of it.
    Whole(CFun),
}

/// Whether the local may be declared next: it is the next one of its kind, and first come the t's,
/// then the b's, then the s's.
fn may_declare(locals: Locals, name: Name) -> bool
    ensures { result ≡ may_declare_of locals name }
{
    match name {
        Name::T(n) => {
            n == locals.temps && (locals.bools == 0 && (locals.selectors == 0 && n < u32::MAX))
        }
        Name::B(n) => n == locals.bools && (locals.selectors == 0 && n < u32::MAX),
        Name::S(n) => n == locals.selectors && n < u32::MAX,
        Name::Reg(_) | Name::Flag(_) | Name::Fs | Name::Gs => false,
    }
}

/// One more local of a kind.
fn with_local(locals: Locals, name: Name) -> Locals
    requires { may_declare_of locals name ≡ true }
    ensures { result ≡ with_local_of locals name }
{
    match name {
        Name::T(_) => Locals {
            temps: locals.temps + 1,
            ..locals
        },
        Name::B(_) => Locals {
            bools: locals.bools + 1,
            ..locals
        },
        Name::S(_) => Locals {
            selectors: locals.selectors + 1,
            ..locals
        },
        Name::Reg(_) | Name::Flag(_) | Name::Fs | Name::Gs => locals,
    }
}

/// The address of the function.
fn at_function(token: Token) -> Option<Reader>
    ensures { option_map state_of result ≡ at_function_of token }
{
    match token {
        Token::Function(address) => Some(Reader::Begun(Head::Open(address))),
        _ => None,
    }
}

/// The token in the head.
fn head_step(head: Head, token: Token) -> Option<Reader>
    ensures { option_map state_of result ≡ head_step_of head token }
{
    match head {
        Head::Void => expect(Mark::Void, Reader::Begun(Head::Function), token),
        Head::Function => at_function(token),
        Head::Open(address) => expect(Mark::Open, Reader::Begun(Head::Nothing(address)), token),
        Head::Nothing(address) => expect(Mark::Void, Reader::Begun(Head::Close(address)), token),
        Head::Close(address) => expect(Mark::Close, Reader::Begun(Head::Begin(address)), token),
        Head::Begin(address) => {
            let no_locals = Locals {
                temps: 0,
                bools: 0,
                selectors: 0,
            };
            expect(
                Mark::Begin,
                Reader::Declaring(address, no_locals, Decl::Next),
                token,
            )
        }
    }
}

/// What became of the Bodies of a function.
fn became(address: u32, locals: Locals, outcome: Option<Outcome>) -> Option<Reader>
    ensures { option_map state_of result ≡ became_of address locals (option_map outcome_of outcome) }
{
    match outcome {
        None => None,
        Some(Outcome::Going(body)) => Some(Reader::Within(address, locals, body)),
        Some(Outcome::Ended(body)) => Some(Reader::Whole(CFun {
            address,
            temps: locals.temps,
            bools: locals.bools,
            selectors: locals.selectors,
            body,
        })),
    }
}

/// A declaration, or a statement.
fn next_decl(
    alloc: Global,
    address: u32,
    locals: Locals,
    token: Token,
) -> Result<Option<Reader>, AllocError>
    ensures { IfOk result (λ r. option_map state_of r ≡ next_decl_of address locals token) }
{
    match token {
        Token::Uint32 if locals.selectors < u32::MAX => {
            Ok(Some(Reader::Declaring(address, locals, Decl::Local)))
        }
        Token::Uint32 => Ok(None),
        _ => {
            let outcome = Body::new(alloc).step(alloc, locals, token)?;
            Ok(became(address, locals, outcome))
        }
    }
}

/// The name of a declared local.
fn at_local(address: u32, locals: Locals, token: Token) -> Option<Reader>
    ensures { option_map state_of result ≡ at_local_of address locals token }
{
    match token {
        Token::Name(name) if may_declare(locals, name) => {
            let locals = with_local(locals, name);
            Some(Reader::Declaring(address, locals, Decl::Assign))
        }
        _ => None,
    }
}

/// The token in the declarations.
fn decl_step(
    alloc: Global,
    address: u32,
    locals: Locals,
    decl: Decl,
    token: Token,
) -> Result<Option<Reader>, AllocError>
    ensures { IfOk result (λ r. option_map state_of r ≡ decl_step_of address locals decl token) }
{
    match decl {
        Decl::Next => next_decl(alloc, address, locals, token),
        Decl::Local => Ok(at_local(address, locals, token)),
        Decl::Assign => {
            let next = Reader::Declaring(address, locals, Decl::Zero);
            Ok(expect(Mark::Assign, next, token))
        }
        Decl::Zero => {
            let next = Reader::Declaring(address, locals, Decl::Semicolon);
            Ok(expect(Mark::Zero, next, token))
        }
        Decl::Semicolon => {
            let next = Reader::Declaring(address, locals, Decl::Next);
            Ok(expect(Mark::Semicolon, next, token))
        }
    }
}

impl Reader {
    /// Nothing has been read.
    pub fn new() -> Reader
        ensures { state_of result ≡ start }
    {
        Reader::Begun(Head::Void)
    }

    /// What one token more makes of it; none where no function goes on with that token.
    pub fn step(self, alloc: Global, token: Token) -> Result<Option<Reader>, AllocError>
        ensures { IfOk result (λ r. option_map state_of r ≡ step_of (state_of self) token) }
    {
        match self {
            Reader::Begun(head) => Ok(head_step(head, token)),
            Reader::Declaring(address, locals, decl) => {
                decl_step(alloc, address, locals, decl, token)
            }
            Reader::Within(address, locals, body) => {
                let outcome = body.step(alloc, locals, token)?;
                Ok(became(address, locals, outcome))
            }
            Reader::Whole(_) => Ok(None),
        }
    }

    /// The function, where all of it has been read.
    pub fn finish(self) -> Option<CFun>
        ensures { result ≡ whole_of (state_of self) }
    {
        match self {
            Reader::Whole(function) => Some(function),
            Reader::Begun(_) | Reader::Declaring(_, _, _) | Reader::Within(_, _, _) => None,
        }
    }
}
