//! What a view has taken and seen, which stands in proofs alone.
use crate::marks::{Claim, Note};
use std::snapshot::Snapshot;

// The claims and notes of a view. A snapshot has no bytes, so none of them is kept.
#[derive(Drop)]
pub enum History {
    Empty,
    Claimed {
        before: Snapshot<History>,
        claim: Claim,
    },
    Noted {
        before: Snapshot<History>,
        note: Note,
    },
    Joined {
        front: Snapshot<History>,
        back: Snapshot<History>,
    },
}
