//! Operators of two words.

ghost use Rattle.std.specs.Prelude.{◌≡◌, true, false, IfOk, IfSome, IsTrue};
ghost use Rattle.c_words.specs.Built.{num as num_of, bin as bin_of};
ghost use Rattle.word_rules.specs.Numbers.{is_number};
ghost use Rattle.word_rules.specs.Operators.{commutes as commutes_of};
ghost use Rattle.word_rules.specs.Plain.{is_plain};
ghost use Rattle.word_rules.specs.Settled.{Settles};
ghost use Rattle.word_rules.specs.Standing.{ForWord, IsCoveredBy};
ghost use Rattle.word_rules.specs.Turns.{MergesWith};

use crate::masks::known;
use crate::numbers::number;
use crate::operators::{absorbs, cancels, commutes, gives_first, gives_nought, merged, turned};
use c_syntax::{CBin, CExpr};
use c_words::{num, same_word};
use sqlite_items::Boxed;
use std::alloc::{AllocError, Global};

/// An operator of two words.
pub fn bin(alloc: Global, op: CBin, a: CExpr, b: CExpr) -> Result<CExpr, AllocError>
    ensures stands { IfOk result (λ e. ForWord (bin_of op a b) e) }
    ensures plain { IsTrue (is_plain a) → IsTrue (is_plain b) → IfOk result (λ e. IsTrue (is_plain e)) }
{
    settled(alloc, op, a, b)
}

/// An operator of two words: a number goes to the right.
pub(crate) fn settled(alloc: Global, op: CBin, a: CExpr, b: CExpr) -> Result<CExpr, AllocError>
    ensures { IfOk result (λ e. Settles (bin_of op a b) e) }
{
    if let Some(k) = number(&b) {
        drop(b);
        return with_number(alloc, op, a, k);
    }
    if commutes(op) {
        return turned_round(alloc, op, a, b);
    }
    of_two(alloc, op, a, b)
}

/// The same of an operator whose words may be exchanged.
fn turned_round(alloc: Global, op: CBin, a: CExpr, b: CExpr) -> Result<CExpr, AllocError>
    requires commutes { commutes_of op ≡ true }
    requires number { is_number b ≡ false }
    ensures { IfOk result (λ e. Settles (bin_of op a b) e) }
{
    if let Some(k) = number(&a) {
        drop(a);
        return with_number(alloc, op, b, k);
    }
    of_two(alloc, op, a, b)
}

/// An operator of two words, of which the second is no number.
fn of_two(alloc: Global, op: CBin, a: CExpr, b: CExpr) -> Result<CExpr, AllocError>
    requires { is_number b ≡ false }
    ensures { IfOk result (λ e. Settles (bin_of op a b) e) }
{
    if same_word(&a, &b) {
        return of_equal(alloc, op, a, b);
    }
    c_words::bin(alloc, op, a, b)
}

/// An operator with one word on both sides.
fn of_equal(alloc: Global, op: CBin, a: CExpr, b: CExpr) -> Result<CExpr, AllocError>
    requires number { is_number b ≡ false }
    requires equal { a ≡ b }
    ensures { IfOk result (λ e. Settles (bin_of op a b) e) }
{
    if cancels(op) {
        drop(a);
        drop(b);
        return Ok(num(0));
    }
    if absorbs(op) {
        drop(b);
        return Ok(a);
    }
    c_words::bin(alloc, op, a, b)
}

/// An operator with a number on the right, after another one where one does for both.
fn with_number(alloc: Global, op: CBin, a: CExpr, k: u32) -> Result<CExpr, AllocError>
    ensures { IfOk result (λ e. Settles (bin_of op a (num_of k)) e) }
{
    match a {
        CExpr::Bin(inner, x, y) => after(alloc, inner, x, y, op, k),
        a => onto_number(alloc, op, a, k),
    }
}

/// An operator with a number on the right, after another operator.
fn after(
    alloc: Global,
    inner: CBin,
    x: Boxed<CExpr>,
    y: Boxed<CExpr>,
    op: CBin,
    k: u32,
) -> Result<CExpr, AllocError>
    ensures { IfOk result (λ e. Settles (bin_of op (bin_of inner x y) (num_of k)) e) }
{
    match merged_with(inner, y.get(), op, k) {
        Some((op, k)) => {
            drop(y);
            onto_number(alloc, op, x.into_inner(), k)
        }
        None => onto_number(alloc, op, CExpr::Bin(inner, x, y), k),
    }
}

/// One operator with a number in the place of two, where the second word of the first is a number.
fn merged_with(inner: CBin, y: &CExpr, op: CBin, k: u32) -> Option<(CBin, u32)>
    ensures { IfSome result (λ m. MergesWith inner y.now op k m) }
{
    match number(y) {
        Some(j) => merged(inner, j, op, k),
        None => None,
    }
}

/// An operator with a number on the right.
fn onto_number(alloc: Global, op: CBin, a: CExpr, k: u32) -> Result<CExpr, AllocError>
    ensures { IfOk result (λ e. Settles (bin_of op a (num_of k)) e) }
{
    if let Some(j) = number(&a) {
        drop(a);
        return Ok(num(op.apply(j, k).unwrap_or(0)));
    }
    if gives_nought(op, k) {
        drop(a);
        return Ok(num(0));
    }
    if gives_first(op, k) {
        return Ok(a);
    }
    if op == CBin::And && covers(k, &a) {
        return Ok(a);
    }
    let (op, k) = turned(op, k);
    c_words::bin(alloc, op, a, num(k))
}

/// Whether a mask keeps all bits of a word.
fn covers(k: u32, a: &CExpr) -> bool
    ensures { IsTrue result → IsCoveredBy a.now k }
{
    let mask = known(a);
    mask & k == mask
}
