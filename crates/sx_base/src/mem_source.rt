//! A source in memory.

ghost use Rattle.std.specs.Prelude.{◌≡◌, ◌≤◌, ◌↔◌, Some, true, min, length, Contains, IsErr, IfOk, OnOk, OnErr};
ghost use Rattle.sx_base.specs.Outside.{Rose, TakesPrefix};
ghost use Rattle.sx_base.specs.Memory.{SourceState, after_take, after_failed_take};

use crate::memory::{is_listed, write_first};
use crate::{Failed, Source};
use std::marker::Model;

/// A source over bytes in memory, which gives at most a given number of them in one call and fails
/// at the calls that it is told to.
///
/// Calls are counted from 0, and no call after the `2^32`-th fails by the list. The source is
/// strict.
#[derive(Debug, Drop)]
pub struct MemSource {
    bytes: Vec<u8>,
    place: usize,
    piece: usize,
    failing: Vec<u32>,
    calls: u64,
    faults: u64,
}

impl Model for MemSource {
    ghost use Rattle.std.specs.Prelude.{◌≤◌, drop, length, vec_len};
    ghost use Rattle.sx_base.specs.Memory.{SourceState};

    ghost Value = { SourceState };

    ghost view = { λ s. record {
      left = drop s.place s.bytes.items;
      piece = s.piece;
      failing = s.failing.items;
      calls = s.calls;
      faults = s.faults;
    } };

    ghost invariant = { λ s. (s.place ≤ length s.bytes.items) × (1 ≤ s.piece) };
}

impl MemSource {
    /// A source of these bytes, which gives at most `piece` in one call and fails at the calls that
    /// `failing` lists.
    pub fn new(bytes: Vec<u8>, piece: usize, failing: Vec<u32>) -> Self
        requires { 1 ≤ piece }
        ensures { result ≡ record {
          left = bytes.items;
          piece = piece;
          failing = failing.items;
          calls = 0;
          faults = 0;
        } }
    {
        MemSource {
            bytes,
            place: 0,
            piece,
            failing,
            calls: 0,
            faults: 0,
        }
    }

    /// The bytes that are left.
    pub fn left(&self) -> &[u8]
        ensures { result.now ≡ self.now.left }
    {
        &self.bytes[self.place..]
    }

    /// How many takes have failed, up to `2^64 - 1`.
    pub fn faults(&self) -> u64
        ensures { result ≡ self.now.faults }
    {
        self.faults
    }
}

impl Source for MemSource {
    ghost left = { λ s. Some s.left };

    ghost faults = { λ s. s.faults };

    ghost strict = { λ _. true };

    /// Gives the next bytes: as many as there are, as fit, and as one call may give.
    ///
    /// It fails exactly where the call is listed, and then takes nothing and does not change `into`.
    fn take(&mut self, into: &mut [u8]) -> Result<usize, Failed>
        ensures within { IfOk result (λ n. n ≤ length into.old) }
        ensures taken { IfOk result (λ n.
            TakesPrefix (Some self.old.left) (Some self.new.left) n into.old into.new) }
        ensures steady { OnOk result (self.new.faults ≡ self.old.faults) }
        ensures falls_never { self.old.faults ≤ self.new.faults }
        ensures failed { OnErr result (Rose self.old.faults self.new.faults) }

        ensures count { IfOk result (λ n.
            n ≡ min self.old.piece (min (length into.old) (length self.old.left))) }
        ensures ok { IfOk result (λ n. self.new ≡ after_take self.old n) }
        ensures listed { IsErr result ↔ Contains self.old.failing self.old.calls }
        ensures err { OnErr result (self.new ≡ after_failed_take self.old) }
        ensures unfilled { OnErr result (into.new ≡ into.old) }
    {
        let listed = is_listed(&self.failing, self.calls);
        self.calls = self.calls.saturating_add(1);
        if listed {
            self.faults = self.faults.saturating_add(1);
            return Err(Failed);
        }
        let left = &self.bytes[self.place..];
        let count = self.piece.min(into.len()).min(left.len());
        write_first(into, &left[..count]);
        self.place += count;
        Ok(count)
    }
}
