//! The words of each shard at the opening.

ghost use Rattle.std.specs.Prelude.{◌≡◌, ℕ, ◌+◌, ◌*◌, ◌≤◌, ◌<◌, [], length, map, slice_index_or, IfOk};
ghost use Rattle.sx_layout.specs.Dealing.{share_of as the_share, dealt, words_for as the_words, for_each_shard};
ghost use Rattle.sx_layout.specs.Plan.{purses_at, bits_at};
ghost use Rattle.sx_layout.specs.declared.share.Share.{Share};
ghost use Rattle.sx_tx.specs.Transactions.{most_transactions};

use crate::dealing::deal;
use crate::share::Share;
use std::alloc::Global;
use sx_bytes::{ListOf, NoMemory};
use sx_ledger::Ledger;

/// The words of a shard.
pub type Words = ListOf<u64>;

/// The words of all shards, shard by shard.
pub struct Opening {
    pub purses: Vec<Words>,
    pub bits: Vec<Words>,
}

// How many of these things a shard has.
pub fn share_of(shards: u32, shard: u32, things: u32) -> u32
    requires some { 1 ≤ shards }
    requires few { shards ≤ 64 }
    requires shard { shard < shards }
    requires things { things ≤ most_transactions }
    ensures share { result ≡ the_share shards shard things }
    ensures few { result ≤ things }
{
    (things + (shards - 1 - shard)) / shards
}

// How many words of 64 bits hold these bits.
pub fn words_for(bits: u32) -> u32
    requires { bits ≤ most_transactions }
    ensures words { result ≡ the_words bits }
    ensures few { result ≤ bits }
{
    bits.div_ceil(64)
}

// How many bit words of a shard are of offers and of new ids. They are clear at the opening.
fn clear_words(ledger: &Ledger, names: &[u64], shards: u32, shard: u32) -> u32
    requires some { 1 ≤ shards }
    requires few { shards ≤ 64 }
    requires shard { shard < shards }
    requires names { length names.now ≤ most_transactions }
    ensures clear { result ≡ the_share shards shard (the_words (length ledger.now.offers))
        + the_share shards shard (the_words (length names.now)) }
    ensures few { result ≤ 2 * most_transactions }
{
    let offers = share_of(shards, shard, words_for(ledger.offers()));
    let new_ids = share_of(shards, shard, words_for(names.len() as u32));
    offers + new_ids
}

// A share for each shard, of no account yet, with memory for all its words.
fn empty_shares(
    alloc: Global,
    ledger: &Ledger,
    names: &[u64],
    shards: u32,
) -> Result<Vec<Share>, NoMemory>
    requires some { 1 ≤ shards }
    requires few { shards ≤ 64 }
    requires names { length names.now ≤ most_transactions }
    ensures one_each { IfOk result (λ shares. length shares.items ≡ shards) }
    ensures balances { IfOk result (λ shares. (k : ℕ) (d : Share) → k < shards
        → (slice_index_or shares.items k d).balances.items ≡ []) }
    ensures used { IfOk result (λ shares. (k : ℕ) (d : Share) → k < shards
        → (slice_index_or shares.items k d).used.items ≡ []) }
{
    let assets = ledger.assets() as usize;
    let mut shares = Vec::with_capacity(alloc, shards as usize)?;
    for shard in 0..shards {
        let accounts = share_of(shards, shard, ledger.accounts()) as usize;
        let clear = clear_words(ledger, names, shards, shard);
        let share = Share::with_room(alloc, accounts * assets, accounts + clear as usize)?;
        shares.push(share)?;
    }
    Ok(shares)
}

// The share of each shard in the accounts.
fn shares_of(
    alloc: Global,
    ledger: &Ledger,
    names: &[u64],
    shards: u32,
) -> Result<Vec<Share>, NoMemory>
    requires some { 1 ≤ shards }
    requires few { shards ≤ 64 }
    requires names { length names.now ≤ most_transactions }
    ensures one_each { IfOk result (λ shares. length shares.items ≡ shards) }
    ensures balances { IfOk result (λ shares. (k : ℕ) (d : Share) → k < shards
        → (slice_index_or shares.items k d).balances.items ≡ purses_at ledger.now shards k) }
    ensures used { IfOk result (λ shares. (k : ℕ) (d : Share) → k < shards
        → (slice_index_or shares.items k d).used.items
        ≡ map (λ account. account.window.used) (dealt shards k ledger.now.accounts)) }
{
    let mut shares = empty_shares(alloc, ledger, names, shards)?;
    deal(ledger.parts().accounts.items(), &mut shares)?;
    Ok(shares)
}

// The opening words of all shards: the accounts are dealt out in turn, and offers and new ids are clear.
pub fn opening_words(
    alloc: Global,
    ledger: &Ledger,
    names: &[u64],
    shards: u32,
) -> Result<Opening, NoMemory>
    requires some { 1 ≤ shards }
    requires few { shards ≤ 64 }
    requires names { length names.now ≤ most_transactions }
    ensures purses { IfOk result (λ opening.
        opening.purses.items ≡ for_each_shard (purses_at ledger.now shards) shards) }
    ensures bits { IfOk result (λ opening.
        opening.bits.items ≡ for_each_shard (bits_at ledger.now names.now shards) shards) }
{
    let shares = shares_of(alloc, ledger, names, shards)?;
    let mut purses = Vec::with_capacity(alloc, shards as usize)?;
    let mut bits = Vec::with_capacity(alloc, shards as usize)?;
    for share in shares {
        let clear = clear_words(ledger, names, shards, bits.len() as u32);
        let (balances, words) = share.into_words(clear)?;
        purses.push(balances)?;
        bits.push(words)?;
    }
    Ok(Opening { purses, bits })
}
