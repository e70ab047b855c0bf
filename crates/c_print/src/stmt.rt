//! The text of statements.

ghost use Rattle.std.specs.Prelude.{◌≡◌, ◌++◌, codes, map};
ghost use Rattle.c_syntax.specs.Spelling.{name_text, ld_text, st_text, num_text};
ghost use Rattle.c_syntax.specs.Text.{word_text, cond_text, stmt_text, arm_text, group_text, all, arms_text, body_text, cases_text, indent};
ghost use Rattle.c_print.specs.Page.{puts};

use crate::digits::put_number;
use crate::page::Page;
use crate::spelling::{load, put_name, store};
use crate::word::{put_cond, put_word};
use c_syntax::{CArm, CCond, CExpr, CGroup, CStmt};
use dream_words::{Name, Width};

/// Puts the blanks at the beginning of a line.
fn put_indent(level: u32, page: &mut Page)
    ensures { page.new ≡ puts page.old (indent level) }
{
    for _step in 0..level.min(32) {
        page.put(b"  ");
    }
}

fn put_set(n: Name, e: &CExpr, page: &mut Page)
    ensures { page.new ≡ puts page.old
        (name_text n ++ codes " = " ++ word_text e.now ++ codes ";\n") }
{
    put_name(n, page);
    page.put(b" = ");
    put_word(e, page);
    page.put(b";\n");
}

fn put_load(n: Name, width: Width, e: &CExpr, page: &mut Page)
    ensures { page.new ≡ puts page.old
        (name_text n ++ codes " = " ++ ld_text width ++ codes "(" ++ word_text e.now ++ codes ");\n") }
{
    put_name(n, page);
    page.put(b" = ");
    page.put(load(width));
    page.put(b"(");
    put_word(e, page);
    page.put(b");\n");
}

fn put_store(width: Width, e: &CExpr, v: &CExpr, page: &mut Page)
    ensures { page.new ≡ puts page.old
        (st_text width ++ codes "(" ++ word_text e.now ++ codes ", " ++ word_text v.now ++ codes ");\n") }
{
    page.put(store(width));
    page.put(b"(");
    put_word(e, page);
    page.put(b", ");
    put_word(v, page);
    page.put(b");\n");
}

fn put_ext(e: &CExpr, page: &mut Page)
    ensures { page.new ≡ puts page.old (codes "ext(" ++ word_text e.now ++ codes ");\n") }
{
    page.put(b"ext(");
    put_word(e, page);
    page.put(b");\n");
}

fn put_trap(v: u32, e: &CExpr, page: &mut Page)
    ensures { page.new ≡ puts page.old
        (codes "trap(" ++ num_text v ++ codes ", " ++ word_text e.now ++ codes ");\n") }
{
    page.put(b"trap(");
    put_number(v, page);
    page.put(b", ");
    put_word(e, page);
    page.put(b");\n");
}

/// Puts the beginning of a switch.
fn put_switch(e: &CExpr, page: &mut Page)
    ensures { page.new ≡ puts page.old (codes "switch (" ++ word_text e.now ++ codes ") {\n") }
{
    page.put(b"switch (");
    put_word(e, page);
    page.put(b") {\n");
}

/// Puts a test that stands before a body.
fn put_test(word: &[u8], c: &CCond, page: &mut Page)
    ensures { page.new ≡ puts page.old
        (word.now ++ codes " (" ++ cond_text c.now ++ codes ") ") }
{
    page.put(word);
    page.put(b" (");
    put_cond(c, page);
    page.put(b") ");
}

/// Puts the test that stands after the body of a `do`.
fn put_until(c: &CCond, page: &mut Page)
    ensures { page.new ≡ puts page.old (codes " while (" ++ cond_text c.now ++ codes ");\n") }
{
    page.put(b" while (");
    put_cond(c, page);
    page.put(b");\n");
}

/// Puts the values of a group.
fn put_cases(values: &[u32], page: &mut Page)
    ensures { page.new ≡ puts page.old (cases_text values.now) }
{
    for v in values {
        page.put(b"case ");
        put_number(*v, page);
        page.put(b": ");
    }
}

/// Puts a statement.
#[cycle(stmt)]
fn put_stmt(s: &CStmt, level: u32, page: &mut Page)
    ensures { page.new ≡ puts page.old (stmt_text s.now level) }
{
    put_indent(level, page);
    match s {
        CStmt::Set(n, e) => put_set(*n, e, page),
        CStmt::Load(n, width, e) => put_load(*n, *width, e, page),
        CStmt::Store(width, e, v) => put_store(*width, e, v, page),
        CStmt::Ext(e) => put_ext(e, page),
        CStmt::Trap(v, e) => put_trap(*v, e, page),
        CStmt::If(arms, last) => {
            put_arms(arms.as_slice(), level, page);
            match last {
                None => page.put(b"\n"),
                Some(last) => put_else(last.as_slice(), level, page),
            }
        }
        CStmt::Switch(e, groups, last) => {
            put_switch(e, page);
            put_groups(groups.as_slice(), level, page);
            put_default(last.as_slice(), level, page);
        }
        CStmt::Loop(body) => {
            page.put(b"while (1) ");
            put_body(body.as_slice(), level, page);
            page.put(b"\n");
        }
        CStmt::While(c, body) => {
            put_test(b"while", c, page);
            put_body(body.as_slice(), level, page);
            page.put(b"\n");
        }
        CStmt::DoWhile(body, c) => {
            page.put(b"do ");
            put_body(body.as_slice(), level, page);
            put_until(c, page);
        }
        CStmt::Break => page.put(b"break;\n"),
        CStmt::Return => page.put(b"return;\n"),
    }
}

/// Puts statements one after another.
#[cycle(stmt)]
pub(crate) fn put_all(stmts: &[CStmt], level: u32, page: &mut Page)
    ensures { page.new ≡ puts page.old (all (map stmt_text stmts.now) level) }
{
    for s in stmts {
        put_stmt(s, level, page);
    }
}

/// Puts a body in its braces. Levels past 32 are indented alike, so they need not be told apart.
#[cycle(stmt)]
fn put_body(stmts: &[CStmt], level: u32, page: &mut Page)
    ensures { page.new ≡ puts page.old (body_text (map stmt_text stmts.now) level) }
{
    page.put(b"{\n");
    put_all(stmts, level.saturating_add(1), page);
    put_indent(level, page);
    page.put(b"}");
}

/// Puts a last `else`.
#[cycle(stmt)]
fn put_else(last: &[CStmt], level: u32, page: &mut Page)
    ensures { page.new ≡ puts page.old
        (codes " else " ++ body_text (map stmt_text last.now) level ++ codes "\n") }
{
    page.put(b" else ");
    put_body(last, level, page);
    page.put(b"\n");
}

/// Puts the default's body and the end of a switch.
#[cycle(stmt)]
fn put_default(last: &[CStmt], level: u32, page: &mut Page)
    ensures { page.new ≡ puts page.old
        (indent level ++ codes "default: " ++ body_text (map stmt_text last.now) level
        ++ codes " break;\n" ++ indent level ++ codes "}\n") }
{
    put_indent(level, page);
    page.put(b"default: ");
    put_body(last, level, page);
    page.put(b" break;\n");
    put_indent(level, page);
    page.put(b"}\n");
}

/// Puts the arms of an `if`.
#[cycle(stmt)]
fn put_arms(arms: &[CArm], level: u32, page: &mut Page)
    ensures { page.new ≡ puts page.old (arms_text (map arm_text arms.now) level) }
{
    let mut sign: &[u8] = b"";
    for arm in arms {
        page.put(sign);
        put_arm(arm, level, page);
        sign = b" else ";
    }
}

/// Puts an arm of an `if`.
#[cycle(stmt)]
fn put_arm(arm: &CArm, level: u32, page: &mut Page)
    ensures { page.new ≡ puts page.old (arm_text arm.now level) }
{
    put_test(b"if", &arm.test, page);
    put_body(arm.body.as_slice(), level, page);
}

/// Puts the groups of a switch.
#[cycle(stmt)]
fn put_groups(groups: &[CGroup], level: u32, page: &mut Page)
    ensures { page.new ≡ puts page.old (all (map group_text groups.now) level) }
{
    for group in groups {
        put_group(group, level, page);
    }
}

/// Puts a group of a switch.
#[cycle(stmt)]
fn put_group(group: &CGroup, level: u32, page: &mut Page)
    ensures { page.new ≡ puts page.old (group_text group.now level) }
{
    put_indent(level, page);
    put_cases(group.values.as_slice(), page);
    put_body(group.body.as_slice(), level, page);
    page.put(b" break;\n");
}
