//! Finds the row of an opcode in the table.

ghost use Rattle.std.specs.Prelude.{◌≡◌, map};
ghost use Rattle.std.specs.List.{find, list_any};
ghost use Rattle.std.specs.Option.{option_copied, option_map};
ghost use Rattle.x86_inst.specs.Table.{table};
ghost use Rattle.x86_decode.specs.declared.table.TheConstants.{TABLE};
ghost use Rattle.x86_decode.specs.View.{prefixes_of, row_of, opens, opens_at};
ghost use Rattle.x86_decode.specs.Reading.{allows_0F};

use crate::rows::{Prefixes, Row};
use crate::table::TABLE;

/// The rows of the opcode table, in its order.
pub fn all_rows() -> &'static [Row]
    ensures rows { result.now ≡ TABLE }
    ensures table { map row_of result.now ≡ table }
{
    &TABLE
}

fn find_row<'a>(rows: &'a [Row], p: &Prefixes, escape: bool, op: u8) -> Option<&'a Row>
    ensures { option_copied result ≡ find (λ r. opens (prefixes_of p.now) escape op (row_of r)) rows.now }
{
    rows.iter().find(|r| r.opens(p, escape, op))
}

fn find_row_at<'a>(
    rows: &'a [Row],
    p: &Prefixes,
    escape: bool,
    op: u8,
    modrm: u8,
) -> Option<&'a Row>
    ensures { option_copied result ≡ find (λ r. opens_at (prefixes_of p.now) escape op modrm (row_of r)) rows.now }
{
    rows.iter().find(|r| r.opens_at(p, escape, op, modrm))
}

fn any_escape(rows: &[Row], p: &Prefixes) -> bool
    ensures { result ≡ list_any (λ r. allows_0F (prefixes_of p.now) (row_of r)) rows.now }
{
    rows.iter().any(|r| r.escape && r.allows(p))
}

/// The row of an opcode on which the prefixes may stand.
pub fn opening(p: &Prefixes, escape: bool, op: u8) -> Option<&'static Row>
    ensures { option_map row_of (option_copied result) ≡ find (opens (prefixes_of p.now) escape op) table }
{
    find_row(&TABLE, p, escape, op)
}

/// The row that takes the ModRM byte, too.
pub fn opening_at(p: &Prefixes, escape: bool, op: u8, modrm: u8) -> Option<&'static Row>
    ensures { option_map row_of (option_copied result) ≡ find (opens_at (prefixes_of p.now) escape op modrm) table }
{
    find_row_at(&TABLE, p, escape, op, modrm)
}

/// Whether the prefixes may stand on some row behind 0F.
pub fn allows_escape(p: &Prefixes) -> bool
    ensures { result ≡ list_any (allows_0F (prefixes_of p.now)) table }
{
    any_escape(&TABLE, p)
}
