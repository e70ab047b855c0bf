//! Sets that are delayed.

use c_syntax::CExpr;
use dream_words::Name;

/// A name, and the word that it is to be set to.
#[derive(Drop)]
pub struct Delayed {
    pub name: Name,
    pub word: CExpr,
}
