//! Which names are live at the beginning of each block.

ghost use Rattle.std.specs.Prelude.{◌≡◌, ℕ, Bool, true, ◌||◌, IfOk, map, slice_get};
ghost use Rattle.std.specs.List.{list_any};
ghost use Rattle.flow_passes.specs.Uses.{is_register};
ghost use Rattle.dream_words.specs.declared.machine.Name.{Name as AnyName};
ghost use Rattle.flag_liveness.specs.Before.{live_at};
ghost use Rattle.flag_liveness.specs.Rows.{row_names, SameRow};
ghost use Rattle.flag_liveness.specs.Within.{names_within, Agree};
ghost use Rattle.flag_liveness.specs.Lives.{live_of, held_in, row_in, across_of};

use crate::names::is_flow_target;
use crate::row::Row;
use crate::seen::Seen;
use dream_words::Name;
use flow_passes::{cond_reads, is_register, word_reads};
use graph_order::NodeId;
use micro_ir::{Case, End};
use std::alloc::{AllocError, Global};
use std::collections::BTreeSet;

/// For each block the names that are live at its beginning: whose words some way from there may still see.
#[derive(Drop)]
pub struct Live {
    /// The registers and flags, for each block in turn.
    pub rows: Vec<Row>,
    /// The temporaries that some block reads before it sets them. They count as live at each block's beginning.
    pub temps: BTreeSet<u32>,
}

impl Live {
    /// Whether a name is live at the beginning of a block. A name that no flow sets counts as live, and
    /// so does every register and flag past the last block.
    pub fn is_live(&self, block: NodeId, n: Name) -> bool
        ensures { result ≡ live_of self.now block n }
    {
        !is_flow_target(n) || self.holds(block, n)
    }

    /// Whether a name is among those of a block.
    fn holds(&self, block: NodeId, n: Name) -> bool
        ensures { result ≡ held_in self.now block n }
    {
        match n {
            Name::T(k) => self.temps.contains(&k),
            _ => self.row(block).has(n),
        }
    }

    /// Whether a name is live at the end of a block: the end reads it, or it is live at a node to which the end may lead.
    pub fn is_live_at(&self, e: &End, n: Name) -> bool
        ensures { result ≡ live_at e.now (live_of self.now) n }
    {
        match e {
            End::Go(a) => self.is_live(*a, n),
            End::Branch(t, a, b) => {
                cond_reads(t, n) || self.is_live(*a, n) || self.is_live(*b, n)
            }
            End::Switch(e, cases) => word_reads(e, n) || self.is_live_in(cases.as_slice(), n),
            End::Return => is_register(n),
            End::Leave(e) => is_register(n) || word_reads(e, n),
        }
    }

    /// Whether a name is live at the node of a case.
    fn is_live_in(&self, cases: &[Case], n: Name) -> bool
        ensures { result ≡ list_any (λ k. live_of self.now k n) (map (λ c. c.to) cases.now) }
    {
        cases.iter().any(|c| self.is_live(c.to, n))
    }

    /// The registers and flags of a block; all, where there is no such block.
    pub fn row(&self, block: NodeId) -> Row
        ensures { (n : AnyName) → row_names result n ≡ row_in (slice_get self.now.rows.items block) n }
    {
        match self.rows.get(block.0 as usize) {
            Some(row) => *row,
            None => Row::all(),
        }
    }

    /// What is live at an end.
    pub fn at_end(&self, alloc: Global, e: &End) -> Result<Seen, AllocError>
        ensures { IfOk result (λ s. Agree (names_within (across_of self.now) s) (live_at e.now (live_of self.now))) }
    {
        match e {
            End::Go(a) => Ok(Seen::new(alloc, self.row(*a), true)),
            End::Branch(t, a, b) => {
                let mut seen = Seen::new(alloc, self.either_row(*a, *b), true);
                seen.add_cond(t)?;
                Ok(seen)
            }
            End::Switch(e, cases) => {
                let goes_on = !cases.is_empty();
                let mut seen = Seen::new(alloc, self.any_row(cases.as_slice()), goes_on);
                seen.add_word(e)?;
                Ok(seen)
            }
            End::Return => Ok(Seen::new(alloc, Row::registers(), false)),
            End::Leave(e) => {
                let mut seen = Seen::new(alloc, Row::registers(), false);
                seen.add_word(e)?;
                Ok(seen)
            }
        }
    }

    /// The registers and flags that are live at one of two nodes.
    fn either_row(&self, a: NodeId, b: NodeId) -> Row
        ensures { SameRow (row_names result) (λ n. held_in self.now a n || held_in self.now b n) }
    {
        let mut row = self.row(a);
        row.add(&self.row(b));
        row
    }

    /// The registers and flags that are live at the node of a case.
    fn any_row(&self, cases: &[Case]) -> Row
        ensures { SameRow (row_names result) (λ n. list_any (λ k. held_in self.now k n) (map (λ c. c.to) cases.now)) }
    {
        let mut row = Row::none();
        for c in cases {
            row.add(&self.row(c.to));
        }
        row
    }
}
