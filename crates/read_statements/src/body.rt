//! The Bodies of a function that are open.

ghost use Rattle.std.specs.Prelude.{◌≡◌, [], IfOk, Some, option_map, reverse};
ghost use Rattle.read_words.specs.Parts.{reading_of};
ghost use Rattle.read_statements.specs.Turns.{At, body_step, closed as closed_of, done as done_of, part as part_of, place_step as place_step_of, placed, settled as settled_of, settled_assign as settled_assign_of, settled_at as settled_at_of, settled_if as settled_if_of, settled_while as settled_while_of, shut as shut_of, turned as turned_of, went as went_of};
ghost use Rattle.read_statements.specs.Readers.{body_of, outcome_of, place_of};

use crate::open::{Nest, Open, Point, Switching, Turn, Use};
use crate::turns::{after_part, turn, wanted_for};
use c_syntax::{CArm, CGroup, CStmt, Token};
use dream_words::Name;
use read_words::{Locals, Part};
use sqlite_items::Items;
use std::alloc::{AllocError, Global};

/// A place in a Body.
#[derive(Drop)]
pub enum Place {
    /// In no Word or Cond.
    At(Point),
    /// In one, as far as it was read.
    Inside(Use, Part),
}

/// The Bodies that are open round the innermost one, from outside inwards, its statements so far,
/// and the place in it.
#[derive(Drop)]
pub struct Body {
    pub open: Items<Open>,
    pub stmts: Items<CStmt>,
    pub place: Place,
}

/// What a token makes of the Bodies that are open.
#[derive(Drop)]
pub enum Outcome {
    /// Others are open.
    Going(Body),
    /// The outermost one has ended, and has these statements.
    Ended(Items<CStmt>),
}

/// A Word or Cond of which nothing has been read.
fn part(alloc: Global, part: Use) -> Place
    ensures { place_of result ≡ part_of part }
{
    let wanted = wanted_for(&part);
    Place::Inside(part, Part::new(alloc, wanted))
}

/// One more statement is whole.
fn done(open: Items<Open>, mut stmts: Items<CStmt>, stmt: CStmt) -> Result<Body, AllocError>
    ensures { IfOk result (λ b. body_of b ≡ done_of (reverse «open») stmts stmt) }
{
    stmts.push(stmt)?;
    Ok(Body {
        open,
        stmts,
        place: Place::At(Point::Stmt),
    })
}

/// A load goes on after `=`, or a Word begins.
fn settled_assign(alloc: Global, name: Name, token: Token) -> Place
    ensures { place_of result ≡ settled_assign_of name token }
{
    match token {
        Token::Ld(_) => Place::At(Point::Assigned(name)),
        _ => part(alloc, Use::Set(name)),
    }
}

/// `while (1)` goes on, or the test begins.
fn settled_while(alloc: Global, token: Token) -> Place
    ensures { place_of result ≡ settled_while_of token }
{
    match token {
        Token::One => Place::At(Point::WhileTest),
        _ => part(alloc, Use::While),
    }
}

/// An `else` goes on after an arm, or the `if` is whole.
fn settled_if(
    open: Items<Open>,
    stmts: Items<CStmt>,
    arms: Items<CArm>,
    token: Token,
) -> Result<Body, AllocError>
    ensures { IfOk result (λ b. body_of b ≡ settled_if_of (reverse «open») stmts arms token) }
{
    match token {
        Token::Else => {
            let place = Place::At(Point::AfterArm(arms));
            Ok(Body { open, stmts, place })
        }
        _ => done(open, stmts, CStmt::If(arms, None)),
    }
}

/// The next token makes the choice between a load and a Word, between `while (1)` and a test, and
/// whether an `if` is whole.
fn settled_at(
    alloc: Global,
    open: Items<Open>,
    stmts: Items<CStmt>,
    point: Point,
    token: Token,
) -> Result<Body, AllocError>
    ensures { IfOk result (λ b. body_of b ≡ settled_at_of (reverse «open») stmts point token) }
{
    match point {
        Point::Assigned(name) => {
            let place = settled_assign(alloc, name, token);
            Ok(Body { open, stmts, place })
        }
        Point::WhileTest => {
            let place = settled_while(alloc, token);
            Ok(Body { open, stmts, place })
        }
        Point::AfterArm(arms) => settled_if(open, stmts, arms, token),
        point => {
            let place = Place::At(point);
            Ok(Body { open, stmts, place })
        }
    }
}

/// Inside a Word or Cond there is no choice to make.
fn settled(alloc: Global, body: Body, token: Token) -> Result<Body, AllocError>
    ensures { IfOk result (λ b. body_of b ≡ settled_of (body_of body).open' (body_of body).stmts (body_of body).place token) }
{
    let Body { open, stmts, place } = body;
    match place {
        Place::At(point) => settled_at(alloc, open, stmts, point, token),
        Place::Inside(wanted, part) => {
            let place = Place::Inside(wanted, part);
            Ok(Body { open, stmts, place })
        }
    }
}

/// The place after a Body that was of this.
fn shut(
    open: Items<Open>,
    stmts: Items<CStmt>,
    nest: Nest,
    body: Items<CStmt>,
) -> Result<Body, AllocError>
    ensures { IfOk result (λ b. body_of b ≡ shut_of (reverse «open») stmts nest body) }
{
    match nest {
        Nest::Arm(mut arms, test) => {
            arms.push(CArm { test, body })?;
            let place = Place::At(Point::AfterArm(arms));
            Ok(Body { open, stmts, place })
        }
        Nest::Else(arms) => done(open, stmts, CStmt::If(arms, Some(body))),
        Nest::Loop => done(open, stmts, CStmt::Loop(body)),
        Nest::While(test) => done(open, stmts, CStmt::While(test, body)),
        Nest::Do => {
            let place = Place::At(Point::AfterDo(body));
            Ok(Body { open, stmts, place })
        }
        Nest::Group(switching, values) => {
            let Switching {
                word,
                mut groups,
                used,
            } = switching;
            groups.push(CGroup { values, body })?;
            let switching = Switching { word, groups, used };
            let place = Place::At(Point::GroupBreak(switching));
            Ok(Body { open, stmts, place })
        }
        Nest::Default(word, groups) => {
            let place = Place::At(Point::SwitchBreak(CStmt::Switch(word, groups, body)));
            Ok(Body { open, stmts, place })
        }
    }
}

/// The innermost Body ends.
fn closed(mut open: Items<Open>, stmts: Items<CStmt>) -> Result<Outcome, AllocError>
    ensures { IfOk result (λ o. outcome_of o ≡ closed_of (reverse «open») stmts) }
{
    match open.pop() {
        None => Ok(Outcome::Ended(stmts)),
        Some(Open { before, nest }) => Ok(Outcome::Going(shut(open, before, nest, stmts)?)),
    }
}

/// What a token has made of a place.
fn turned(
    alloc: Global,
    mut open: Items<Open>,
    stmts: Items<CStmt>,
    turn: Turn,
) -> Result<Outcome, AllocError>
    ensures { IfOk result (λ o. turned_of (reverse «open») stmts (Some turn) ≡ Some (outcome_of o)) }
{
    match turn {
        Turn::To(point) => {
            let place = Place::At(point);
            Ok(Outcome::Going(Body { open, stmts, place }))
        }
        Turn::Part(wanted) => {
            let place = part(alloc, wanted);
            Ok(Outcome::Going(Body { open, stmts, place }))
        }
        Turn::Done(stmt) => Ok(Outcome::Going(done(open, stmts, stmt)?)),
        Turn::Opens(nest) => {
            open.push(Open {
                before: stmts,
                nest,
            })?;
            Ok(Outcome::Going(Body {
                open,
                stmts: Items::new(alloc),
                place: Place::At(Point::Stmt),
            }))
        }
        Turn::Ends => closed(open, stmts),
    }
}

/// What comes of it where a token has made this of a place, if anything.
fn after_turn(
    alloc: Global,
    open: Items<Open>,
    stmts: Items<CStmt>,
    turn: Option<Turn>,
) -> Result<Option<Outcome>, AllocError>
    ensures { IfOk result (λ o. option_map outcome_of o ≡ turned_of (reverse «open») stmts turn) }
{
    match turn {
        None => Ok(None),
        Some(turn) => Ok(Some(turned(alloc, open, stmts, turn)?)),
    }
}

/// What comes of it where a token has made this of a Word or Cond, if anything.
fn went(open: Items<Open>, stmts: Items<CStmt>, wanted: Use, part: Option<Part>) -> Option<Outcome>
    ensures { option_map outcome_of result ≡ went_of (reverse «open») stmts wanted (option_map reading_of part) }
{
    match part {
        None => None,
        Some(part) => {
            let place = Place::Inside(wanted, part);
            Some(Outcome::Going(Body { open, stmts, place }))
        }
    }
}

/// The token at a place, or inside or after a Word or Cond.
fn place_step(
    alloc: Global,
    locals: Locals,
    body: Body,
    token: Token,
) -> Result<Option<Outcome>, AllocError>
    ensures { IfOk result (λ o. option_map outcome_of o ≡ place_step_of locals (body_of body).open' (body_of body).stmts (body_of body).place token) }
{
    let Body { open, stmts, place } = body;
    match place {
        Place::At(point) => {
            let turn = turn(alloc, locals, open.as_slice(), point, token)?;
            after_turn(alloc, open, stmts, turn)
        }
        Place::Inside(wanted, part) => match part.finish() {
            Ok(item) => after_turn(alloc, open, stmts, after_part(wanted, item, token)),
            Err(part) => {
                let part = part.step(alloc, locals, token)?;
                Ok(went(open, stmts, wanted, part))
            }
        },
    }
}

impl Body {
    /// One of which nothing has been read, and that is in no other.
    pub(crate) fn new(alloc: Global) -> Body
        ensures { body_of result ≡ placed [] [] (At Point.Stmt) }
    {
        Body {
            open: Items::new(alloc),
            stmts: Items::new(alloc),
            place: Place::At(Point::Stmt),
        }
    }

    /// What one token more makes of it; none where no Body goes on with that token.
    pub(crate) fn step(
        self,
        alloc: Global,
        locals: Locals,
        token: Token,
    ) -> Result<Option<Outcome>, AllocError>
        ensures { IfOk result (λ o. option_map outcome_of o ≡ body_step locals (body_of self) token) }
    {
        let body = settled(alloc, self, token)?;
        place_step(alloc, locals, body, token)
    }
}
