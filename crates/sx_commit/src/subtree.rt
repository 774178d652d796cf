//! A digest of the tree by itself: no other digest of its level is made.

ghost use Rattle.std.specs.Prelude.{◌≡◌, ◌-◌, ◌<◌, ◌≤◌, ◌^◌};
ghost use Rattle.sx_commit.specs.Commitments.{digest_at};

use crate::hashing::{empty_digest, leaf_digest, node_digest};
use sx_block::Digest;
use sx_ledger::Parts;

// The digest of what stands at a place of the ledger.
fn leaf_at(parts: &Parts, place: usize) -> Digest
    ensures { result ≡ digest_at parts.now 0 place }
{
    let accounts = parts.accounts.items();
    if place < accounts.len() {
        leaf_digest(parts.version, &accounts[place])
    } else {
        empty_digest()
    }
}

// The digest at a level and a place. It takes a digest of each account below it, and of each place without one.
pub(crate) fn digest_over(parts: &Parts, level: usize, place: usize) -> Digest
    requires level { level < 64 }
    requires place { place < 2 ^ (63 - level) }
    ensures { result ≡ digest_at parts.now level place }
{
    if level == 0 {
        return leaf_at(parts, place);
    }
    let left = digest_over(parts, level - 1, 2 * place);
    let right = digest_over(parts, level - 1, 2 * place + 1);
    node_digest(&left, &right)
}
