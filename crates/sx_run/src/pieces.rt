//! Bytes in pieces.

ghost use Rattle.std.specs.Prelude.{◌≡◌, ◌≤◌, OnErr, OnOk, IsTrue};
ghost use Rattle.std.specs.List.{flat_map};
ghost use Rattle.sx_base.specs.Outside.{Appends, AppendsPrefix, Rose};

use std::marker::Model;
use sx_base::{Failed, Sink, put_all};
use sx_bytes::Writer;

/// Bytes in pieces, which are written one after the other and joined nowhere. Contracts see one list: the pieces one
/// behind the other.
#[derive(Debug, Drop)]
pub struct Pieces {
    pieces: Vec<Writer>,
}

impl Model for Pieces {
    ghost use Rattle.std.specs.Prelude.{ℕ, List};
    ghost use Rattle.std.specs.List.{flat_map};

    ghost Value = { List ℕ };

    ghost view = { λ p. flat_map (λ bytes. bytes) p.pieces.items };
}

// Puts pieces one after the other, all of them, or a prefix of all.
fn put_each<K: Sink>(sink: &mut K, pieces: &[Writer]) -> Result<(), Failed>
    ensures appended { OnOk result (Appends (K.written sink.old) (K.written sink.new) (flat_map (λ bytes. bytes) pieces.now)) }
    ensures steady { OnOk result (IsTrue (K.strict sink.old) → K.faults sink.new ≡ K.faults sink.old) }
    ensures failed { OnErr result (Rose (K.faults sink.old) (K.faults sink.new)) }
    ensures prefix { OnErr result (AppendsPrefix (K.written sink.old) (K.written sink.new) (flat_map (λ bytes. bytes) pieces.now)) }
{
    for piece in pieces {
        put_all(sink, piece.bytes())?;
    }
    Ok(())
}

impl Pieces {
    /// The bytes of these pieces. It takes no memory.
    pub fn of(pieces: Vec<Writer>) -> Pieces
        ensures { result ≡ flat_map (λ bytes. bytes) pieces.items }
    {
        Pieces { pieces }
    }

    /// Puts one piece after the other, all of them, or a prefix of all bytes.
    pub fn put<K: Sink>(&self, sink: &mut K) -> Result<(), Failed>
        ensures appended { OnOk result (Appends (K.written sink.old) (K.written sink.new) self.now) }
        ensures steady { OnOk result (IsTrue (K.strict sink.old) → K.faults sink.new ≡ K.faults sink.old) }
        ensures failed { OnErr result (Rose (K.faults sink.old) (K.faults sink.new)) }
        ensures prefix { OnErr result (AppendsPrefix (K.written sink.old) (K.written sink.new) self.now) }
    {
        put_each(sink, &self.pieces)
    }
}
