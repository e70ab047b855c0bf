//! A Word or Cond that is being read.

ghost use Rattle.std.specs.Prelude.{◌≡◌, IfOk, option_map, reverse};
ghost use Rattle.read_words.specs.Turns.{after as after_of, begun, depth_left as depth_of, step_of, turned as turned_of};
ghost use Rattle.read_words.specs.Parts.{reading_of, IsFinished};

use crate::open::{Item, Locals, Open, State, Turn, Wanted};
use crate::turns::{after, turn};
use c_syntax::Token;
use sqlite_items::Items;
use std::alloc::{AllocError, Global};

/// A Word or Cond that is being read: the parts that are open, from outside inwards, and the
/// innermost one.
#[derive(Drop)]
pub struct Part {
    pub open: Items<Open>,
    pub state: State,
}

/// How much depth is left inside the open parts.
fn depth_left(around: &Items<Open>) -> usize
    ensures { result ≡ depth_of (reverse around.now) }
{
    256usize.saturating_sub(around.len())
}

/// What a token has made of it, where it goes on with that token.
fn turned(mut around: Items<Open>, turn: Option<Turn>) -> Result<Option<Part>, AllocError>
    ensures { IfOk result (λ p. option_map reading_of p ≡ turned_of (reverse around) turn) }
{
    let Some(Turn { round, state }) = turn else {
        return Ok(None);
    };
    if let Some(round) = round {
        around.push(round)?;
    }
    Ok(Some(Part {
        open: around,
        state,
    }))
}

impl Part {
    /// One of which nothing has been read.
    pub fn new(alloc: Global, wanted: Wanted) -> Part
        ensures { reading_of result ≡ begun wanted }
    {
        Part {
            open: Items::new(alloc),
            state: State::Want(wanted),
        }
    }

    /// The Word or Cond, where it is whole; else what was read of it.
    pub fn finish(self) -> Result<Item, Part>
        ensures { IsFinished self result }
    {
        let Part { open, state } = self;
        match state {
            State::Have(item) if open.is_empty() => Ok(item),
            state => Err(Part { open, state }),
        }
    }

    /// What one token more makes of it; none where no Word or Cond goes on with that token.
    pub fn step(
        self,
        alloc: Global,
        locals: Locals,
        token: Token,
    ) -> Result<Option<Part>, AllocError>
        ensures { IfOk result (λ p. option_map reading_of p ≡ step_of locals (reading_of self).state (reading_of self).open' token) }
    {
        let Part { mut open, state } = self;
        match state {
            State::Have(item) => match open.pop() {
                Some(round) => turned(open, after(alloc, round, item, token)?),
                None => {
                    drop(item);
                    Ok(None)
                }
            },
            state => {
                let turn = turn(locals, depth_left(&open), state, token);
                turned(open, turn)
            }
        }
    }
}
