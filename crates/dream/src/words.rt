//! The words of the command line.

ghost use Rattle.std.specs.Prelude.{◌≡◌, [], drop, IfOk, OnErr, MatchResult};
ghost use Rattle.std.specs.Vec.Iter.{into_iter_items};

use std::alloc::{AllocError, Global};
use std::env::Args;
use std::io;
use std::io::ErrorKind;

// All arguments but the first.
fn after_name(alloc: Global, all: Args) -> Result<Vec<String>, AllocError>
    ensures { IfOk result (λ words. words.items ≡ drop 1 (into_iter_items all)) }
{
    all.skip(1).collect(alloc)
}

/// The words after the program's name, of all arguments. Where these can't be read, because one of them isn't UTF-8, there
/// are no words, which is no command.
pub fn words_of(alloc: Global, args: io::Result<Args>) -> Result<Vec<String>, AllocError>
    ensures { MatchResult args
        (λ all. IfOk result (λ words. words.items ≡ drop 1 (into_iter_items all)))
        (λ error. IfOk result (λ words. words.items ≡ [])) }
{
    match args {
        Ok(all) => after_name(alloc, all),
        Err(error) if error.kind() == ErrorKind::OutOfMemory => Err(AllocError),
        Err(_) => Ok(Vec::new(alloc)),
    }
}
