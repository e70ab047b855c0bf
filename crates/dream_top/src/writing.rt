//! Writing whole texts to a stream that may take less at once.

ghost use Rattle.std.specs.Prelude.{◌≡◌, ◌≤◌, List, ℕ, OnOk, OnErr};
ghost use Rattle.std.specs.List.{flat_map};
ghost use Rattle.std.specs.Io.KnownBytes.{Appends};
ghost use Rattle.dream_top.specs.Answers.{writing_of, StopsIn};

use dream_outside::{Failed, Sink};

/// Writes the whole piece, in as many puts as it takes.
pub fn put_all<K: Sink>(sink: &mut K, piece: &[u8]) -> Result<(), Failed>
    ensures ok { OnOk result (Appends (K.taken sink.old) (K.taken sink.new) piece.now) }
    ensures err { OnErr result (StopsIn
        (writing_of (K.taken sink.old) (K.taken sink.new) (K.faults sink.old) (K.faults sink.new))
        piece.now) }
    ensures later { K.faults sink.old ≤ K.faults sink.new }
{
    let mut at = 0;
    while at < piece.len() {
        at += sink.put(&piece[at..])?;
    }
    Ok(())
}

/// Writes one piece after another.
pub fn put_pieces<K: Sink>(sink: &mut K, pieces: &[&[u8]]) -> Result<(), Failed>
    ensures ok { OnOk result (Appends (K.taken sink.old) (K.taken sink.new)
        (flat_map (λ p. p.now) pieces.now)) }
    ensures err { OnErr result (StopsIn
        (writing_of (K.taken sink.old) (K.taken sink.new) (K.faults sink.old) (K.faults sink.new))
        (flat_map (λ p. p.now) pieces.now)) }
    ensures later { K.faults sink.old ≤ K.faults sink.new }
{
    for piece in pieces {
        put_all(sink, piece)?;
    }
    Ok(())
}
