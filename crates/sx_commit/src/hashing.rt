//! The digests of leaves, of places without an account, and of pairs.

ghost use Rattle.std.specs.Prelude.{◌≡◌, ℕ, List, ◌++◌, OnOk};
ghost use Rattle.std.specs.List.{flat_map};
ghost use Rattle.byteorder.specs.Endian.{big_bytes};
ghost use Rattle.sha2.specs.Hashers.{Holds256};
ghost use Rattle.sha2.specs.Sha256.{sha256};
ghost use Rattle.sx_block.specs.Digest.{IsDigest};
ghost use Rattle.sx_commit.specs.Commitments.{empty_bytes, leaf_bytes, node_bytes};

use crate::leaf::{put_bytes, put_leaf};
use sha2::{Digest as Hasher, Sha256};
use sx_block::{Digest, digest_of};
use sx_bytes::{NoMemory, Writer};
use sx_ledger::Account;
use sx_state::write_account;

// What the bytes begin with of which a digest is made, so that none of the three is taken for another.
pub(crate) const LEAF: u8 = 0;

pub(crate) const NODE: u8 = 1;

pub(crate) const EMPTY: u8 = 2;

// As many balances as an account of a ledger may have.
const MOST_BALANCES: usize = 32;

// The length of the leaf of such an account: 2 bytes, its id, its window and its balances.
const LONGEST_LEAF: usize = 2 + 8 + 16 + 8 * MOST_BALANCES;

// The length of a node: a byte, and the bytes of two digests.
const NODE_BYTES: usize = 1 + 2 * 32;

// Writes the bytes of an account's leaf in place of what was written before.
pub(crate) fn write_leaf(to: &mut Writer, version: u8, account: &Account) -> Result<(), NoMemory>
    ensures { OnOk result (to.new ≡ leaf_bytes version account.now) }
{
    to.cut(0);
    to.put_u8(LEAF)?;
    to.put_u8(version)?;
    write_account(to, version, account)
}

// Adds balances of an account to a message.
fn add_balances(hasher: &mut Sha256, balances: &[u64])
    ensures { (m : List ℕ) → Holds256 hasher.old m
        → Holds256 hasher.new (m ++ flat_map (big_bytes 8) balances.now) }
{
    for units in balances {
        hasher.update(units.to_be_bytes().as_slice());
    }
}

// The digest of an account: its leaf is hashed at once, but for balances after the first 32, of which an account of a
// ledger has none. It takes no memory.
pub(crate) fn leaf_digest(version: u8, account: &Account) -> Digest
    ensures hash { result ≡ sha256 (leaf_bytes version account.now) }
    ensures digest { IsDigest result }
{
    let balances = account.balances.items();
    let (first, others) = balances.split_at(balances.len().min(MOST_BALANCES));
    let mut text = [0; LONGEST_LEAF];
    let end = put_leaf(&mut text, version, account, first);
    let mut hasher = Sha256::new();
    hasher.update(&text[..end]);
    add_balances(&mut hasher, others);
    Digest::of(hasher.finalize())
}

// The digest of a place without an account.
pub(crate) fn empty_digest() -> Digest
    ensures hash { result ≡ sha256 empty_bytes }
    ensures digest { IsDigest result }
{
    digest_of(&[EMPTY])
}

// The digest of two digests, which are hashed at once where they have 64 bytes or fewer, as any two digests do.
// It takes no memory.
pub(crate) fn node_digest(left: &Digest, right: &Digest) -> Digest
    ensures hash { result ≡ sha256 (node_bytes left.now right.now) }
    ensures digest { IsDigest result }
{
    let left = left.bytes();
    let right = right.bytes();
    if left.len() + right.len() < NODE_BYTES {
        let mut text = [NODE; NODE_BYTES];
        let end = put_bytes(&mut text, 1, left);
        let end = put_bytes(&mut text, end, right);
        return digest_of(&text[..end]);
    }
    let mut hasher = Sha256::new();
    hasher.update([NODE].as_slice());
    hasher.update(left);
    hasher.update(right);
    Digest::of(hasher.finalize())
}
