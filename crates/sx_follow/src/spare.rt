//! Memory that is used again.

ghost use Rattle.std.specs.Prelude.{◌≡◌, [], ◌^◌, ◌<◌, length, IfOk};
ghost use Rattle.sx_block.specs.Validity.{digest_of_ledger};
ghost use Rattle.sx_state.specs.Encoding.{state_bytes};

use crate::refilling::copied;
use std::alloc::Global;
use sx_block::Digest;
use sx_bytes::{NoMemory, Writer};
use sx_digests::record_digest;
use sx_ledger::Ledger;
use sx_record::tag;
use sx_state::{state_length, write_state};

/// Ledgers and encodings of ledgers that are no longer needed. Nothing is read of them: copies and other encodings are
/// written over them.
#[derive(Debug, Drop)]
pub struct Spare {
    ledgers: Vec<Ledger>,
    states: Vec<Writer>,
}

impl Spare {
    /// Nothing is kept so far.
    pub fn new(alloc: Global) -> Spare {
        Spare {
            ledgers: Vec::new(alloc),
            states: Vec::new(alloc),
        }
    }

    /// Keeps a ledger for a later copy. Where there is no memory for a longer list, the ledger is dropped.
    pub fn keep(&mut self, ledger: Ledger) {
        let _ = self.ledgers.push(ledger);
    }

    /// Keeps a state for a later one in the same way.
    pub fn keep_state(&mut self, state: Writer) {
        let _ = self.states.push(state);
    }

    /// A ledger of its own with the same parts. It takes no memory where one with as many entries is kept.
    pub fn copy(&mut self, alloc: Global, ledger: &Ledger) -> Result<Ledger, NoMemory>
        ensures { IfOk result (λ copy. copy ≡ ledger.now) }
    {
        copied(alloc, ledger, self.ledgers.pop())
    }

    // A writer of nothing so far, which has the memory for so many bytes where it was taken before.
    fn empty(&mut self, alloc: Global, bytes: u32) -> Result<Writer, NoMemory>
        ensures { IfOk result (λ state. state ≡ []) }
    {
        let Some(mut state) = self.states.pop() else {
            let mut fresh = Writer::new(alloc);
            fresh.reserve(bytes as usize)?;
            return Ok(fresh);
        };
        state.cut(0);
        Ok(state)
    }

    /// The encoding of a ledger as a state. It takes no memory where one as long is kept.
    pub fn state(&mut self, alloc: Global, ledger: &Ledger) -> Result<Writer, NoMemory>
        ensures state { IfOk result (λ state. state ≡ state_bytes ledger.now) }
        ensures fits { IfOk result (λ state. length state < 2 ^ 32) }
    {
        let length = state_length(ledger);
        let mut state = self.empty(alloc, length)?;
        write_state(&mut state, ledger)?;
        prove!(state.bytes().len() == length as usize);
        Ok(state)
    }

    /// The digest of a ledger: SHA-256 of its state record. It takes no memory where a state as long is kept.
    pub fn digest(&mut self, alloc: Global, ledger: &Ledger) -> Result<Digest, NoMemory>
        ensures { IfOk result (λ digest. digest ≡ digest_of_ledger ledger.now) }
    {
        let state = self.state(alloc, ledger)?;
        let digest = record_digest(tag::STATE, state.bytes());
        self.keep_state(state);
        Ok(digest)
    }
}
