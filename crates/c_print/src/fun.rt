//! The text of a function.

ghost use Rattle.std.specs.Prelude.{◌≡◌, ◌++◌, ◌<◌, ◌^◌, ◌-◌, ℕ, codes, length, min, IfOk};
ghost use Rattle.dream_words.specs.declared.machine.Name.{Name};
ghost use Rattle.c_syntax.specs.Spelling.{decimal, name_text};
ghost use Rattle.c_syntax.specs.Text.{canonical_text, decls_text};
ghost use Rattle.c_print.specs.Page.{puts};

use crate::digits::put_function;
use crate::page::Page;
use crate::spelling::put_local;
use crate::stmt::put_all;
use c_syntax::CFun;
use std::alloc::{AllocError, Global};

/// Puts the declarations of the locals of a kind, by its letter.
fn put_decls(letter: &[u8], count: u32, page: &mut Page)
    ensures { (kind : ℕ → Name) → ((n : ℕ) → name_text (kind n) ≡ letter.now ++ decimal n)
        → page.new ≡ puts page.old (decls_text kind count) }
{
    for n in 0..count {
        page.put(b"  uint32_t ");
        put_local(letter, n, page);
        page.put(b" = 0u;\n");
    }
}

/// Puts a function.
fn put_fun(f: &CFun, page: &mut Page)
    ensures { page.new ≡ puts page.old (canonical_text f.now) }
{
    page.put(b"#include \"dream386.h\"\n\nvoid ");
    put_function(f.address, page);
    page.put(b"(void)\n{\n");
    put_decls(b"t", f.temps, page);
    put_decls(b"b", f.bools, page);
    put_decls(b"s", f.selectors, page);
    put_all(f.body.as_slice(), 1, page);
    page.put(b"}\n");
}

/// How many bytes the canonical text has. 2^64 - 1 stands for that many and more.
fn text_len(f: &CFun) -> u64
    ensures { result ≡ min (length (canonical_text f.now)) (2 ^ 64 - 1) }
{
    let mut page = Page::counting();
    put_fun(f, &mut page);
    page.count()
}

/// The length of the canonical text, in bytes.
pub fn exact_len(f: &CFun) -> u64
    requires { length (canonical_text f.now) < 2 ^ 63 }
    ensures { result ≡ length (canonical_text f.now) }
{
    text_len(f)
}

/// The canonical text. Its memory is reserved once, and after that nothing can fail. A text of 2^63
/// bytes or more is want of memory.
pub fn print(alloc: Global, f: &CFun) -> Result<Vec<u8>, AllocError>
    ensures { IfOk result (λ text. text.items ≡ canonical_text f.now) }
{
    let len = text_len(f);
    if len >= 1 << 63 {
        return Err(AllocError);
    }
    let mut page = Page::keeping(alloc, len as usize)?;
    put_fun(f, &mut page);
    Ok(page.into_text())
}
