//! Whether a proof is good.

ghost use Rattle.std.specs.Prelude.{◌≡◌, ◌<◌, ◌≤◌, ◌↔◌, IsTrue, length};
ghost use Rattle.sx_commit.specs.Commitments.{IsGood, folded, joined, leaf_of, levels};

use crate::committing::LEVELS;
use crate::hashing::{leaf_digest, node_digest};
use sx_block::{Digest, Proof};

// The digest over a digest at a place and its sibling.
pub(crate) fn join(place: u32, digest: &Digest, sibling: &Digest) -> Digest
    ensures { result ≡ joined place digest.now sibling.now }
{
    if place % 2 == 0 {
        node_digest(digest, sibling)
    } else {
        node_digest(sibling, digest)
    }
}

// The digest that a leaf leads up to.
fn fold(place: u32, siblings: &[Digest], leaf: &Digest) -> Digest
    requires { length siblings.now ≡ levels }
    ensures { result ≡ folded place siblings.now leaf.now levels }
{
    let mut digest = *leaf;
    for k in 0..LEVELS {
        digest = join(place >> k, &digest, &siblings[k]);
    }
    digest
}

/// The root that a proof is good for: the digest that its account's leaf, with the siblings one after the other,
/// leads up to. It takes the sixteen lowest bits of the place, and looks at no range: a place of 65,536 or more has
/// to be refused before. It takes no memory.
pub fn leads_to(proof: &Proof) -> Digest
    requires siblings { length proof.now.siblings ≡ levels }
    ensures good { IsGood result proof.now }
{
    let leaf = leaf_digest(proof.version, &proof.account);
    fold(proof.place, proof.siblings.items(), &leaf)
}

/// Whether a proof is good for a root: whether the root is the one that [`leads_to`] answers. It takes no memory.
pub fn verify(root: &Digest, proof: &Proof) -> bool
    requires siblings { length proof.now.siblings ≡ levels }
    ensures exact { IsTrue result ↔ IsGood root.now proof.now }
{
    let reached = leads_to(proof);
    let said = *root;
    reached == said
}
