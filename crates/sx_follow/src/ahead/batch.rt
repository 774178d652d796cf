//! Blocks that were applied ahead.

use crate::spare::Spare;
use sx_block::Digest;
use sx_bytes::Writer;
use sx_ledger::Ledger;

/// What a block claims of the ledger that it leaves: the digest that it names of it, and the encoding of that ledger, from
/// which it is told whether the digest is right.
#[derive(Debug, Drop)]
pub struct Claim {
    pub state: Writer,
    pub digest: Digest,
}

/// What blocks leave that were applied one on the other: the claim of each, and the ledger that the last one leaves with
/// the digest that it names of it.
#[derive(Debug, Drop)]
pub struct Batch {
    pub claims: Vec<Claim>,
    pub ledger: Ledger,
    pub digest: Digest,
}

impl Batch {
    /// Keeps its ledger and its states, to be written over.
    pub fn keep_in(self, spare: &mut Spare) {
        let Batch {
            claims,
            ledger,
            digest: _,
        } = self;
        spare.keep(ledger);
        keep_states(claims, spare);
    }

    /// Keeps its ledger and its states, and those of the batch on top, if there is one.
    pub fn keep_with(self, next: Option<Batch>, spare: &mut Spare) {
        self.keep_in(spare);
        if let Some(next) = next {
            next.keep_in(spare);
        }
    }
}

/// Keeps the states of claims, to be written over.
pub fn keep_states(claims: Vec<Claim>, spare: &mut Spare) {
    for claim in claims {
        spare.keep_state(claim.state);
    }
}
