//! The values that stand in a switch.

ghost use Rattle.std.specs.Prelude.{◌≡◌, [], ◌∷◌, ◌++◌, length, not, IfOk, OnOk};
ghost use Rattle.run_parts.specs.Parts.{has};
ghost use Rattle.read_statements.specs.Turns.{with_new};

use indexmap::IndexSet;
use std::alloc::{AllocError, Global};
use std::marker::Model;

/// Different words, in the order in which they came.
#[derive(Drop)]
pub struct Values {
    set: IndexSet<u32>,
}

impl Model for Values {
    ghost use Rattle.std.specs.Prelude.{List, ℕ};

    ghost Value = { List ℕ };

    ghost view = { λ v. v.set.keys };
}

impl Values {
    pub(crate) fn new(alloc: Global) -> Values
        ensures { result ≡ [] }
    {
        Values {
            set: IndexSet::new(alloc),
        }
    }

    pub(crate) fn len(&self) -> usize
        ensures { result ≡ length self.now }
    {
        self.set.len()
    }

    /// Adds a value, unless it is there; whether it wasn't.
    pub(crate) fn add(&mut self, value: u32) -> Result<bool, AllocError>
        ensures new { IfOk result (λ is_new. is_new ≡ not (has self.old value)) }
        ensures added { OnOk result (self.new ≡ with_new self.old value) }
    {
        let (_, is_new) = self.set.insert_full(value)?;
        Ok(is_new)
    }
}
