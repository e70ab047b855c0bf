//! Which pages of memory a run may read and which it may write.

ghost use Rattle.std.specs.Prelude.{◌≡◌, IfOk};
ghost use Rattle.dream_words.specs.Memory.{bytes_of};
ghost use Rattle.dream_words.specs.Pages.{is_in_run, is_in, all_pages, first_bad as first_bad_of};

use crate::machine::Width;
use sqlite_items::Items;
use std::alloc::{AllocError, Global};

/// Pages that follow one another. The page of an address is the address divided by 4,096 (Intel SDM
/// vol. 3, 4.3). A run may have no page, and its count may reach past the last page, 1,048,575.
#[derive(Clone, Copy, Debug, PartialEq, Eq)]
pub struct PageRun {
    /// The number of the first page.
    pub first: u32,
    /// How many pages there are.
    pub count: u32,
}

impl PageRun {
    /// Whether the page is one of them.
    fn has(self, page: u32) -> bool
        ensures { result ≡ is_in_run page self }
    {
        self.first <= page && u64::from(page) < u64::from(self.first) + u64::from(self.count)
    }
}

/// The pages that may be read, and those that may be written. Runs may overlap and stand in any
/// order; a page in none of them isn't allowed.
#[derive(Drop)]
pub struct Pages {
    pub read: Items<PageRun>,
    pub write: Items<PageRun>,
}

impl Pages {
    /// Every page may be read and written.
    pub fn all(alloc: Global) -> Result<Pages, AllocError>
        ensures { IfOk result (λ pages. pages ≡ all_pages) }
    {
        let whole = PageRun {
            first: 0,
            count: 1 << 20,
        };
        Ok(Pages {
            read: Items::from_slice(alloc, &[whole])?,
            write: Items::from_slice(alloc, &[whole])?,
        })
    }
}

/// The address of the first byte of an access whose page isn't among the runs, counted from the byte
/// at `at` on; addresses wrap around past 0xffffffff. None exactly where there is no such byte.
/// It looks at each run at most once for each byte, and stops at the first run that has the page.
pub fn first_bad(runs: &Items<PageRun>, at: u32, w: Width) -> Option<u32>
    ensures { result ≡ first_bad_of runs.now at (bytes_of w) }
{
    for k in 0..w.bytes() as u32 {
        let byte = at.wrapping_add(k);
        if !is_allowed(runs, byte / 4096) {
            return Some(byte);
        }
    }
    None
}

/// Whether some run has the page.
fn is_allowed(runs: &Items<PageRun>, page: u32) -> bool
    ensures { result ≡ is_in page runs.now }
{
    for run in runs.as_slice() {
        if run.has(page) {
            return true;
        }
    }
    false
}
