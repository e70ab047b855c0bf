//! The temporaries that some block reads before it sets them.

ghost use Rattle.std.specs.Prelude.{◌≡◌, ℕ, Bool, IfOk, OnOk, IsTrue};
ghost use Rattle.std.specs.Ordering.{nat_cmp};
ghost use Rattle.std.specs.BTreeSet as set;
ghost use Rattle.micro_ir.specs.Rule.{is_flow_target};
ghost use Rattle.flow_passes.specs.Uses.{end_reads, is_register};
ghost use Rattle.flag_liveness.specs.Within.{names_within, Agree};
ghost use Rattle.flag_liveness.specs.Across.{block_reads, Crosses};

use crate::row::Row;
use crate::seen::Seen;
use dream_words::Name;
use micro_ir::{Block, End};
use std::alloc::{AllocError, Global};
use std::collections::BTreeSet;

/// The temporaries that some block reads before it sets them.
pub(crate) fn across(alloc: Global, blocks: &[Block]) -> Result<BTreeSet<u32>, AllocError>
    ensures { IfOk result (λ temps. Crosses blocks.now (set.contains nat_cmp temps)) }
{
    let mut temps = BTreeSet::new(alloc);
    for b in blocks {
        add_block(alloc, b, &mut temps)?;
    }
    Ok(temps)
}

/// Adds the temporaries that a block reads before it sets them.
fn add_block(alloc: Global, b: &Block, temps: &mut BTreeSet<u32>) -> Result<(), AllocError>
    ensures keeps { OnOk result ((i : ℕ) → IsTrue (set.contains nat_cmp temps.old i) → IsTrue (set.contains nat_cmp temps.new i)) }
    ensures adds { OnOk result ((i : ℕ) → IsTrue (is_flow_target (Name.T i)) → IsTrue (block_reads b.now (Name.T i)) → IsTrue (set.contains nat_cmp temps.new i)) }
{
    let mut seen = read_first(alloc, b)?;
    temps.append(&mut seen.live)?;
    Ok(())
}

/// The names that a block reads before it sets them.
fn read_first(alloc: Global, b: &Block) -> Result<Seen, AllocError>
    ensures { IfOk result (λ s. (across : ℕ → Bool) → Agree (names_within across s) (block_reads b.now)) }
{
    let mut seen = read_last(alloc, &b.end)?;
    let stmts = b.stmts.as_slice();
    let mut k = stmts.len();
    while k > 0 {
        k -= 1;
        seen.go_back(&stmts[k])?;
    }
    Ok(seen)
}

/// The names that an end reads.
fn read_last(alloc: Global, e: &End) -> Result<Seen, AllocError>
    ensures { IfOk result (λ s. (across : ℕ → Bool) → Agree (names_within across s) (end_reads e.now)) }
{
    match e {
        End::Go(_) => Ok(Seen::new(alloc, Row::none(), false)),
        End::Branch(t, _, _) => {
            let mut seen = Seen::new(alloc, Row::none(), false);
            seen.add_cond(t)?;
            Ok(seen)
        }
        End::Switch(e, _) => {
            let mut seen = Seen::new(alloc, Row::none(), false);
            seen.add_word(e)?;
            Ok(seen)
        }
        End::Return => Ok(Seen::new(alloc, Row::registers(), false)),
        End::Leave(e) => {
            let mut seen = Seen::new(alloc, Row::registers(), false);
            seen.add_word(e)?;
            Ok(seen)
        }
    }
}
