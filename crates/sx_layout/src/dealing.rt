//! Accounts that are dealt out to the shards in turn.

ghost use Rattle.std.specs.Prelude.{◌≡◌, ◌≢◌, ℕ, ◌+◌, ◌<◌, ◌⊎◌, ◌++◌, [], ◌∷◌, length, map, slice_index_or, OnOk};
ghost use Rattle.std.specs.List.{flat_map};
ghost use Rattle.sx_layout.specs.Dealing.{dealt};
ghost use Rattle.sx_layout.specs.declared.share.Share.{Share};

use crate::share::Share;
use sx_bytes::NoMemory;
use sx_ledger::Account;

// Gives a shard one more account.
fn give(shares: &mut [Share], shard: usize, account: &Account) -> Result<(), NoMemory>
    requires { shard < length shares.old }
    ensures one_each { length shares.new ≡ length shares.old }
    ensures balances { OnOk result ((d : Share) → (slice_index_or shares.new shard d).balances.items
        ≡ (slice_index_or shares.old shard d).balances.items ++ account.now.balances) }
    ensures used { OnOk result ((d : Share) → (slice_index_or shares.new shard d).used.items
        ≡ (slice_index_or shares.old shard d).used.items ++ account.now.window.used ∷ []) }
    ensures others { (k : ℕ) (d : Share) → k ≢ shard → slice_index_or shares.new k d ≡ slice_index_or shares.old k d }
{
    shares[shard].take_in(account)?;
    Ok(())
}

// The shard whose turn comes after a shard's.
fn next_shard(shards: usize, shard: usize) -> usize
    requires { shard < shards }
    ensures within { result < shards }
    ensures next { (result ≡ shard + 1) ⊎ (result + shards ≡ shard + 1) }
{
    let next = shard + 1;
    if next == shards { 0 } else { next }
}

/// Deals accounts out to the shards in turn, from the first shard on, in one pass.
pub fn deal(accounts: &[Account], shares: &mut [Share]) -> Result<(), NoMemory>
    requires { 0 < length shares.old }
    ensures one_each { length shares.new ≡ length shares.old }
    ensures balances { OnOk result ((k : ℕ) (d : Share) → k < length shares.old
        → (slice_index_or shares.new k d).balances.items ≡ (slice_index_or shares.old k d).balances.items
        ++ flat_map (λ account. account.balances) (dealt (length shares.old) k accounts.now)) }
    ensures used { OnOk result ((k : ℕ) (d : Share) → k < length shares.old
        → (slice_index_or shares.new k d).used.items ≡ (slice_index_or shares.old k d).used.items
        ++ map (λ account. account.window.used) (dealt (length shares.old) k accounts.now)) }
{
    let mut shard = 0;
    for account in accounts {
        give(shares, shard, account)?;
        shard = next_shard(shares.len(), shard);
    }
    Ok(())
}
