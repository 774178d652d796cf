//! A sink in memory.

ghost use Rattle.std.specs.Prelude.{◌≡◌, ◌⊎◌, ◌<◌, ◌≤◌, ◌↔◌, Some, true, [], min, length, take, vec_len, Contains, IsErr, IfOk, OnOk, OnErr};
ghost use Rattle.sx_base.specs.Outside.{Rose, Appends};
ghost use Rattle.sx_base.specs.Memory.{SinkState, spare, after_put, after_failed_put};

use crate::memory::{is_refused, write_at};
use crate::{Failed, Sink};
use std::marker::Model;

/// A sink over a vector in memory, which takes at most a given number of bytes in one call and fails
/// at the calls that it is told to.
///
/// It writes over the bytes of the vector from the first on, and never grows it. Calls are counted
/// from 0, and no call after the `2^32`-th fails by the list. The sink is strict.
#[derive(Debug, Drop)]
pub struct MemSink {
    room: Vec<u8>,
    place: usize,
    piece: usize,
    failing: Vec<u32>,
    calls: u64,
    faults: u64,
}

impl Model for MemSink {
    ghost use Rattle.std.specs.Prelude.{◌≤◌, take, length};
    ghost use Rattle.sx_base.specs.Memory.{SinkState};

    ghost Value = { SinkState };

    ghost view = { λ s. record {
      written = take s.place s.room.items;
      room = length s.room.items;
      piece = s.piece;
      failing = s.failing.items;
      calls = s.calls;
      faults = s.faults;
    } };

    ghost invariant = { λ s. (s.place ≤ length s.room.items) × (1 ≤ s.piece) };
}

impl MemSink {
    /// A sink with as much room as `room` has bytes, which takes at most `piece` in one call and
    /// fails at the calls that `failing` lists.
    pub fn new(room: Vec<u8>, piece: usize, failing: Vec<u32>) -> Self
        requires { 1 ≤ piece }
        ensures { result ≡ record {
          written = [];
          room = vec_len room;
          piece = piece;
          failing = failing.items;
          calls = 0;
          faults = 0;
        } }
    {
        MemSink {
            room,
            place: 0,
            piece,
            failing,
            calls: 0,
            faults: 0,
        }
    }

    /// The bytes written so far.
    pub fn written(&self) -> &[u8]
        ensures { result.now ≡ self.now.written }
    {
        &self.room[..self.place]
    }

    /// How many puts have failed, up to `2^64 - 1`.
    pub fn faults(&self) -> u64
        ensures { result ≡ self.now.faults }
    {
        self.faults
    }
}

impl Sink for MemSink {
    ghost written = { λ s. Some s.written };

    ghost faults = { λ s. s.faults };

    ghost strict = { λ _. true };

    /// Appends as many of the bytes as there are, as there is room for, and as one call may take.
    ///
    /// It fails exactly where the call is listed, or where there are bytes and no room is left.
    fn put(&mut self, bytes: &[u8]) -> Result<usize, Failed>
        ensures within { IfOk result (λ n. n ≤ length bytes.now) }
        ensures some { IfOk result (λ n. 0 < length bytes.now → 0 < n) }
        ensures appended { IfOk result (λ n.
            Appends (Some self.old.written) (Some self.new.written) (take n bytes.now)) }
        ensures steady { OnOk result (self.new.faults ≡ self.old.faults) }
        ensures falls_never { self.old.faults ≤ self.new.faults }
        ensures failed { OnErr result (Rose self.old.faults self.new.faults) }
        ensures unwritten { OnErr result (Some self.new.written ≡ Some self.old.written) }

        ensures count { IfOk result (λ n.
            n ≡ min self.old.piece (min (length bytes.now) (spare self.old))) }
        ensures ok { IfOk result (λ n. self.new ≡ after_put self.old (take n bytes.now)) }
        ensures refused { IsErr result ↔ (Contains self.old.failing self.old.calls
            ⊎ ((0 < length bytes.now) × (spare self.old ≡ 0))) }
        ensures err { OnErr result (self.new ≡ after_failed_put self.old) }
    {
        let room = self.room.len() - self.place;
        let refused = is_refused(&self.failing, self.calls, bytes.len(), room);
        self.calls = self.calls.saturating_add(1);
        if refused {
            self.faults = self.faults.saturating_add(1);
            return Err(Failed);
        }
        let count = self.piece.min(bytes.len()).min(room);
        write_at(&mut self.room, self.place, &bytes[..count]);
        self.place += count;
        Ok(count)
    }
}
