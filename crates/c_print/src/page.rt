//! Where a text is put: once to count it, and once to keep it.

ghost use Rattle.std.specs.Prelude.{◌≡◌, ◌≤◌, ◌-◌, ◌++◌, length, take, vec_capacity, IfOk, IsSome, Some, option_map};
ghost use Rattle.std.specs.Option.{ForSome};
ghost use Rattle.c_print.specs.Page.{Shown, puts, keeping_page, counting_page};

use std::alloc::{AllocError, Global};
use std::marker::Model;

/// It counts each byte that is put, and may keep the first ones, as far as it has room. A text longer
/// than its room can be put on it, and nothing that is put can fail.
#[derive(Drop)]
pub(crate) struct Page {
    count: u64,
    room: usize,
    text: Option<Vec<u8>>,
}

impl Model for Page {
    ghost Value = { Shown };

    ghost view = { λ p. record {
      count = p.count;
      room = p.room;
      kept = option_map (λ v. v.items) p.text;
    } };

    ghost invariant = { λ p.
        ForSome p.text (λ v. (length v.items ≤ p.room) × (p.room ≤ vec_capacity v)) };
}

impl Page {
    /// A page that only counts.
    pub(crate) fn counting() -> Page
        ensures { result ≡ counting_page }
    {
        Page {
            count: 0,
            room: 0,
            text: None,
        }
    }

    /// A page that keeps up to so many bytes. No more memory is asked for later.
    pub(crate) fn keeping(alloc: Global, room: usize) -> Result<Page, AllocError>
        ensures { IfOk result (λ page. page ≡ keeping_page room) }
    {
        let text = Vec::with_capacity(alloc, room)?;
        Ok(Page {
            count: 0,
            room,
            text: Some(text),
        })
    }

    /// Puts a text.
    pub(crate) fn put(&mut self, piece: &[u8])
        ensures { self.new ≡ puts self.old piece.now }
    {
        self.count = self.count.saturating_add(piece.len() as u64);
        if let Some(text) = &mut self.text {
            keep(text, self.room, piece);
        }
    }

    /// How many bytes were put.
    pub(crate) fn count(&self) -> u64
        ensures { result ≡ self.now.count }
    {
        self.count
    }

    /// The bytes of a page that keeps them.
    pub(crate) fn into_text(self) -> Vec<u8>
        requires { IsSome self.kept }
        ensures { self.kept ≡ Some result.items }
    {
        match self.text {
            Some(text) => text,
            None => unreachable!(),
        }
    }
}

/// Keeps as much of a text as there is room for.
fn keep(text: &mut Vec<u8>, room: usize, piece: &[u8])
    requires full { length text.old.items ≤ room }
    requires reserved { room ≤ vec_capacity text.old }
    ensures items { text.new.items ≡ text.old.items ++ take (room - length text.old.items) piece.now }
    ensures full { length text.new.items ≤ room }
    ensures reserved { room ≤ vec_capacity text.new }
{
    let left = room - text.len();
    let _ = text.extend_from_slice(&piece[..left.min(piece.len())]);
}
