//! The value of a Word and the truth of a Cond.

ghost use Rattle.std.specs.Prelude.{◌≡◌};
ghost use Rattle.run_parts.specs.World.{Names};
ghost use Rattle.c_syntax.specs.Value.{word_of, truth_of};

use c_syntax::{CCond, CExpr};
use dream_words::Name;

/// What has a word for each name.
pub trait Words {
    /// The word of each name.
    ghost words: { Self → Names };

    /// The word of a name.
    fn word(&self, n: Name) -> u32
        ensures { result ≡ words self.now n };
}

/// The value of a Word. None where it is stuck.
#[cycle(value)]
pub fn value<W: Words>(e: &CExpr, words: &W) -> Option<u32>
    ensures { result ≡ word_of e.now (W.words words.now) }
{
    match e {
        CExpr::Num(n) => Some(*n),
        CExpr::Name(n) => Some(words.word(*n)),
        CExpr::Not(a) => {
            let a = value(a.get(), words)?;
            Some(!a)
        }
        CExpr::Bin(op, a, b) => {
            let a = value(a.get(), words)?;
            let b = value(b.get(), words)?;
            op.apply(a, b)
        }
        CExpr::Fn1(f, a) => {
            let a = value(a.get(), words)?;
            Some(f.apply(a))
        }
        CExpr::Fn2(f, a, b) => {
            let a = value(a.get(), words)?;
            let b = value(b.get(), words)?;
            Some(f.apply(a, b))
        }
        CExpr::Fn3(f, a, b, c) => {
            let a = value(a.get(), words)?;
            let b = value(b.get(), words)?;
            let c = value(c.get(), words)?;
            Some(f.apply(a, b, c))
        }
        CExpr::Pick(t, a, b) => {
            if truth(t.get(), words)? {
                value(a.get(), words)
            } else {
                value(b.get(), words)
            }
        }
    }
}

/// Whether a Cond is true. None where it is stuck.
#[cycle(value)]
pub fn truth<W: Words>(t: &CCond, words: &W) -> Option<bool>
    ensures { result ≡ truth_of t.now (W.words words.now) }
{
    match t {
        CCond::Cmp(op, a, b) => {
            let a = value(a, words)?;
            let b = value(b, words)?;
            Some(op.apply(a, b))
        }
        CCond::Not(t) => {
            let t = truth(t.get(), words)?;
            Some(!t)
        }
        CCond::And(t, u) => {
            if truth(t.get(), words)? {
                truth(u.get(), words)
            } else {
                Some(false)
            }
        }
        CCond::Or(t, u) => {
            if truth(t.get(), words)? {
                Some(true)
            } else {
                truth(u.get(), words)
            }
        }
    }
}
