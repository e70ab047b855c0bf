//! What a token makes of a place in a Body.

ghost use Rattle.std.specs.Prelude.{◌≡◌, false, IfOk, reverse};
ghost use Rattle.read_statements.specs.Turns.{after_case as after_case_of, after_cond as after_cond_of, after_else as after_else_of, after_part as after_part_of, after_word as after_word_of, at_else as at_else_of, at_group as at_group_of, at_load as at_load_of, at_one as at_one_of, at_stmt as at_stmt_of, breakable as breakable_of, breaks_in, case_number as case_number_of, depth_left as depth_of, has_room as has_room_of, trap_number as trap_number_of, turn as turn_of, wanted_for as wanted_of};

use crate::marks::expect;
use crate::open::{Mark, Nest, Open, Point, Switching, Turn, Use};
use crate::values::Values;
use c_syntax::{CArm, CCond, CExpr, CStmt, Token};
use dream_words::Name;
use read_words::{Item, Locals, Wanted};
use sqlite_items::Items;
use std::alloc::{AllocError, Global};

/// How many Bodies more may stand one in another, inside the open ones.
fn depth_left(around: &[Open]) -> usize
    ensures { result ≡ depth_of (reverse around.now) }
{
    512usize.saturating_sub(around.len())
}

/// Whether a `break` inside a Body of this ends there.
fn catches_break(nest: &Nest) -> bool
    ensures { result ≡ breaks_in false nest.now }
{
    match nest {
        Nest::Arm(..) | Nest::Else(..) => false,
        Nest::Loop | Nest::While(..) | Nest::Do | Nest::Group(..) | Nest::Default(..) => true,
    }
}

/// Whether a `break` may stand in the innermost Body.
fn breakable(around: &[Open]) -> bool
    ensures { result ≡ breakable_of (reverse around.now) }
{
    around.iter().any(|body| catches_break(&body.nest))
}

/// The first token of a statement, or the end of the Body.
fn at_stmt(alloc: Global, locals: Locals, around: &[Open], token: Token) -> Option<Turn>
    ensures { result ≡ at_stmt_of locals (breakable_of (reverse around.now)) (depth_of (reverse around.now)) token }
{
    let nests = depth_left(around) >= 1;
    match token {
        Token::Name(name) if locals.may_set(name) => Some(Turn::To(Point::Named(name))),
        Token::St(width) => Some(Turn::To(Point::Called(Use::Address(width)))),
        Token::Ext => Some(Turn::To(Point::Called(Use::Ext))),
        Token::Trap => Some(Turn::To(Point::TrapOpen)),
        Token::If if nests => Some(Turn::To(Point::Called(Use::If(Items::new(alloc))))),
        Token::Switch if nests => Some(Turn::To(Point::Called(Use::Switch))),
        Token::While if nests => Some(Turn::To(Point::WhileOpen)),
        Token::Do if nests => Some(Turn::To(Point::Begins(Nest::Do))),
        Token::Break if breakable(around) => Some(Turn::To(Point::Semicolon(CStmt::Break))),
        Token::Return => Some(Turn::To(Point::Semicolon(CStmt::Return))),
        Token::End => Some(Turn::Ends),
        _ => None,
    }
}

/// A load.
fn at_load(name: Name, token: Token) -> Option<Turn>
    ensures { result ≡ at_load_of name token }
{
    match token {
        Token::Ld(width) => Some(Turn::To(Point::Called(Use::Load(name, width)))),
        _ => None,
    }
}

/// The number of a trap.
fn trap_number(token: Token) -> Option<Turn>
    ensures { result ≡ trap_number_of token }
{
    match token {
        Token::Num(vector) => Some(Turn::To(Point::TrapComma(vector))),
        _ => None,
    }
}

/// `1` after `while (`.
fn at_one(token: Token) -> Option<Turn>
    ensures { result ≡ at_one_of token }
{
    match token {
        Token::One => Some(Turn::To(Point::LoopClose)),
        _ => None,
    }
}

/// `else` after an arm.
fn at_else(arms: Items<CArm>, token: Token) -> Option<Turn>
    ensures { result ≡ at_else_of arms token }
{
    match token {
        Token::Else => Some(Turn::To(Point::AfterElse(arms))),
        _ => None,
    }
}

/// `if` or `{` after `else`.
fn after_else(arms: Items<CArm>, token: Token) -> Option<Turn>
    ensures { result ≡ after_else_of arms token }
{
    match token {
        Token::If => Some(Turn::To(Point::Called(Use::If(arms)))),
        Token::Begin => Some(Turn::Opens(Nest::Else(arms))),
        _ => None,
    }
}

/// Whether some word doesn't stand in the switch yet.
fn has_room(switching: &Switching) -> bool
    ensures { result ≡ has_room_of switching.now }
{
    switching.used.len() < 0x1_0000_0000
}

/// `case` or `default`.
fn at_group(alloc: Global, switching: Switching, token: Token) -> Option<Turn>
    ensures { result ≡ at_group_of switching token }
{
    match token {
        Token::Case if has_room(&switching) => {
            Some(Turn::To(Point::CaseNumber(switching, Items::new(alloc))))
        }
        Token::Default => {
            let Switching {
                word,
                groups,
                used: _,
            } = switching;
            Some(Turn::To(Point::DefaultColon(word, groups)))
        }
        _ => None,
    }
}

/// A value that doesn't stand in the switch.
fn case_number(
    switching: Switching,
    mut values: Items<u32>,
    token: Token,
) -> Result<Option<Turn>, AllocError>
    ensures { IfOk result (λ t. t ≡ case_number_of switching values token) }
{
    let Token::Num(value) = token else {
        return Ok(None);
    };
    let Switching {
        word,
        groups,
        mut used,
    } = switching;
    if !used.add(value)? {
        return Ok(None);
    }
    values.push(value)?;
    let switching = Switching { word, groups, used };
    Ok(Some(Turn::To(Point::CaseColon(switching, values))))
}

/// `case` or `{` after a value.
fn after_case(switching: Switching, values: Items<u32>, token: Token) -> Option<Turn>
    ensures { result ≡ after_case_of switching values token }
{
    match token {
        Token::Case if has_room(&switching) => {
            Some(Turn::To(Point::CaseNumber(switching, values)))
        }
        Token::Begin => Some(Turn::Opens(Nest::Group(switching, values))),
        _ => None,
    }
}

/// The token at a place that isn't in a Word or Cond.
pub(crate) fn turn(
    alloc: Global,
    locals: Locals,
    around: &[Open],
    point: Point,
    token: Token,
) -> Result<Option<Turn>, AllocError>
    ensures { IfOk result (λ t. t ≡ turn_of locals (breakable_of (reverse around.now)) (depth_of (reverse around.now)) point token) }
{
    match point {
        Point::Stmt => Ok(at_stmt(alloc, locals, around, token)),
        Point::Named(name) => Ok(expect(Mark::Assign, Turn::To(Point::Assigned(name)), token)),
        Point::Assigned(name) => Ok(at_load(name, token)),
        Point::Called(part) => Ok(expect(Mark::Open, Turn::Part(part), token)),
        Point::TrapOpen => Ok(expect(Mark::Open, Turn::To(Point::TrapNumber), token)),
        Point::TrapNumber => Ok(trap_number(token)),
        Point::TrapComma(vector) => {
            Ok(expect(Mark::Comma, Turn::Part(Use::Trap(vector)), token))
        }
        Point::WhileOpen => Ok(expect(Mark::Open, Turn::To(Point::WhileTest), token)),
        Point::WhileTest => Ok(at_one(token)),
        Point::LoopClose => {
            let begins = Turn::To(Point::Begins(Nest::Loop));
            Ok(expect(Mark::Close, begins, token))
        }
        Point::Begins(nest) => Ok(expect(Mark::Begin, Turn::Opens(nest), token)),
        Point::AfterArm(arms) => Ok(at_else(arms, token)),
        Point::AfterElse(arms) => Ok(after_else(arms, token)),
        Point::AfterDo(body) => {
            let test = Turn::To(Point::Called(Use::Do(body)));
            Ok(expect(Mark::While, test, token))
        }
        Point::SwitchBegin(word) => {
            let switching = Switching {
                word,
                groups: Items::new(alloc),
                used: Values::new(alloc),
            };
            Ok(expect(Mark::Begin, Turn::To(Point::Group(switching)), token))
        }
        Point::Group(switching) => Ok(at_group(alloc, switching, token)),
        Point::CaseNumber(switching, values) => case_number(switching, values, token),
        Point::CaseColon(switching, values) => {
            let next = Turn::To(Point::AfterCase(switching, values));
            Ok(expect(Mark::Colon, next, token))
        }
        Point::AfterCase(switching, values) => Ok(after_case(switching, values, token)),
        Point::GroupBreak(switching) => {
            let next = Turn::To(Point::GroupSemicolon(switching));
            Ok(expect(Mark::Break, next, token))
        }
        Point::GroupSemicolon(switching) => {
            Ok(expect(Mark::Semicolon, Turn::To(Point::Group(switching)), token))
        }
        Point::DefaultColon(word, groups) => {
            let begins = Turn::To(Point::Begins(Nest::Default(word, groups)));
            Ok(expect(Mark::Colon, begins, token))
        }
        Point::SwitchBreak(stmt) => {
            Ok(expect(Mark::Break, Turn::To(Point::SwitchSemicolon(stmt)), token))
        }
        Point::SwitchSemicolon(stmt) => {
            Ok(expect(Mark::Semicolon, Turn::To(Point::SwitchEnd(stmt)), token))
        }
        Point::SwitchEnd(stmt) => Ok(expect(Mark::End, Turn::Done(stmt), token)),
        Point::Semicolon(stmt) => Ok(expect(Mark::Semicolon, Turn::Done(stmt), token)),
    }
}

/// The token after a Word that is whole.
fn after_word(part: Use, word: CExpr, token: Token) -> Option<Turn>
    ensures { result ≡ after_word_of part word token }
{
    match part {
        Use::Set(name) => expect(Mark::Semicolon, Turn::Done(CStmt::Set(name, word)), token),
        Use::Load(name, width) => {
            let stmt = CStmt::Load(name, width, word);
            expect(Mark::Close, Turn::To(Point::Semicolon(stmt)), token)
        }
        Use::Address(width) => expect(Mark::Comma, Turn::Part(Use::Value(width, word)), token),
        Use::Value(width, address) => {
            let stmt = CStmt::Store(width, address, word);
            expect(Mark::Close, Turn::To(Point::Semicolon(stmt)), token)
        }
        Use::Ext => {
            let stmt = CStmt::Ext(word);
            expect(Mark::Close, Turn::To(Point::Semicolon(stmt)), token)
        }
        Use::Trap(vector) => {
            let stmt = CStmt::Trap(vector, word);
            expect(Mark::Close, Turn::To(Point::Semicolon(stmt)), token)
        }
        Use::Switch => expect(Mark::Close, Turn::To(Point::SwitchBegin(word)), token),
        Use::If(_) | Use::While | Use::Do(_) => None,
    }
}

/// The token after a Cond that is whole.
fn after_cond(part: Use, cond: CCond, token: Token) -> Option<Turn>
    ensures { result ≡ after_cond_of part cond token }
{
    match part {
        Use::If(arms) => {
            let begins = Turn::To(Point::Begins(Nest::Arm(arms, cond)));
            expect(Mark::Close, begins, token)
        }
        Use::While => {
            let begins = Turn::To(Point::Begins(Nest::While(cond)));
            expect(Mark::Close, begins, token)
        }
        Use::Do(body) => {
            let stmt = CStmt::DoWhile(body, cond);
            expect(Mark::Close, Turn::To(Point::Semicolon(stmt)), token)
        }
        Use::Set(_)
        | Use::Load(_, _)
        | Use::Address(_)
        | Use::Value(_, _)
        | Use::Ext
        | Use::Trap(_)
        | Use::Switch => None,
    }
}

/// The token after a Word or Cond that is whole.
pub(crate) fn after_part(part: Use, item: Item, token: Token) -> Option<Turn>
    ensures { result ≡ after_part_of part item token }
{
    match item {
        Item::Word(word) => after_word(part, word, token),
        Item::Cond(cond) => after_cond(part, cond, token),
    }
}

/// What is wanted there.
pub(crate) fn wanted_for(part: &Use) -> Wanted
    ensures { result ≡ wanted_of part.now }
{
    match part {
        Use::If(_) | Use::While | Use::Do(_) => Wanted::Cond,
        Use::Set(_)
        | Use::Load(_, _)
        | Use::Address(_)
        | Use::Value(_, _)
        | Use::Ext
        | Use::Trap(_)
        | Use::Switch => Wanted::Word,
    }
}
