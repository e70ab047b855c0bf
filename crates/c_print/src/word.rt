//! The text of Words and Conds.

ghost use Rattle.std.specs.Prelude.{◌≡◌, ◌++◌, codes};
ghost use Rattle.c_syntax.specs.Text.{word_text, cond_text};
ghost use Rattle.c_print.specs.Page.{puts};

use crate::digits::put_number;
use crate::page::Page;
use crate::spelling::{comparison, of_one, of_three, of_two, operator, put_name};
use c_syntax::{CCond, CExpr};

/// Puts a sign, with a blank on either side.
fn put_sign(sign: &[u8], page: &mut Page)
    ensures { page.new ≡ puts page.old (codes " " ++ sign.now ++ codes " ") }
{
    page.put(b" ");
    page.put(sign);
    page.put(b" ");
}

/// Puts a Word.
#[cycle(word)]
pub(crate) fn put_word(e: &CExpr, page: &mut Page)
    ensures { page.new ≡ puts page.old (word_text e.now) }
{
    match e {
        CExpr::Num(n) => put_number(*n, page),
        CExpr::Name(n) => put_name(*n, page),
        CExpr::Not(a) => {
            page.put(b"(~");
            put_word(a.get(), page);
            page.put(b")");
        }
        CExpr::Bin(op, a, b) => {
            page.put(b"(");
            put_word(a.get(), page);
            put_sign(operator(*op), page);
            put_word(b.get(), page);
            page.put(b")");
        }
        CExpr::Fn1(f, a) => {
            page.put(of_one(*f));
            page.put(b"(");
            put_word(a.get(), page);
            page.put(b")");
        }
        CExpr::Fn2(f, a, b) => {
            page.put(of_two(*f));
            page.put(b"(");
            put_word(a.get(), page);
            page.put(b", ");
            put_word(b.get(), page);
            page.put(b")");
        }
        CExpr::Fn3(f, a, b, c) => {
            page.put(of_three(*f));
            page.put(b"(");
            put_word(a.get(), page);
            page.put(b", ");
            put_word(b.get(), page);
            page.put(b", ");
            put_word(c.get(), page);
            page.put(b")");
        }
        CExpr::Pick(c, a, b) => {
            page.put(b"(");
            put_cond(c.get(), page);
            page.put(b" ? ");
            put_word(a.get(), page);
            page.put(b" : ");
            put_word(b.get(), page);
            page.put(b")");
        }
    }
}

/// Puts a Cond.
#[cycle(word)]
pub(crate) fn put_cond(c: &CCond, page: &mut Page)
    ensures { page.new ≡ puts page.old (cond_text c.now) }
{
    match c {
        CCond::Cmp(op, a, b) => {
            page.put(b"(");
            put_word(a, page);
            put_sign(comparison(*op), page);
            put_word(b, page);
            page.put(b")");
        }
        CCond::Not(c) => {
            page.put(b"(!");
            put_cond(c.get(), page);
            page.put(b")");
        }
        CCond::And(c, d) => {
            page.put(b"(");
            put_cond(c.get(), page);
            put_sign(b"&&", page);
            put_cond(d.get(), page);
            page.put(b")");
        }
        CCond::Or(c, d) => {
            page.put(b"(");
            put_cond(c.get(), page);
            put_sign(b"||", page);
            put_cond(d.get(), page);
            page.put(b")");
        }
    }
}
