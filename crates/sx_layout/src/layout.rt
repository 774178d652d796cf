//! Which word of which shard holds what.

ghost use Rattle.std.specs.Prelude.{◌≡◌, ◌≤◌, ◌<◌, length, IfOk};
ghost use Rattle.sx_layout.specs.Plan.{plan_of, purse_spot, window_spot, window_words, offer_words, bit_spot, offer_spot, name_spot, name_found, words_of};
ghost use Rattle.sx_layout.specs.PlanLaws.{IsLaidOut};
ghost use Rattle.sx_ledger.specs.Ledger.{assets_of};
ghost use Rattle.sx_tx.specs.Transactions.{most_transactions};

use crate::new_ids::new_ids;
use crate::opening::{Opening, Words, opening_words, share_of, words_for};
use crate::spot::Spot;
use std::alloc::Global;
use std::marker::Model;
use sx_base::{AccountId, AssetId};
use sx_bytes::NoMemory;
use sx_ledger::Ledger;
use sx_tx::Tx;

/// Which word of which shard holds what while candidates of a ledger are gathered: the balance of each
/// account in each asset is a purse, the sequence numbers of each account are the bits of one word, and
/// each offer and each new id is a bit. Contracts see a `Plan`.
///
/// Accounts are dealt out to the shards in turn, by their places, and so are the words of 64 offers and
/// those of 64 new ids. In each shard the words of sequence numbers come first, then those of offers,
/// then those of new ids. No two things share a purse or a bit ([`layout_laws`](crate::layout_laws)).
#[derive(Debug, Drop)]
pub struct Layout {
    assets: u32,
    accounts: u32,
    offers: u32,
    shards: u32,
    names: Vec<u64>,
    purses: Vec<Words>,
    bits: Vec<Words>,
}

impl Model for Layout {
    ghost use Rattle.sx_layout.specs.Plan.{Plan, IsPlan};

    ghost Value = { Plan };

    ghost view = { λ l. record {
      assets = l.assets;
      accounts = l.accounts;
      offers = l.offers;
      names = l.names.items;
      shards = l.shards;
      purses = l.purses.items;
      bits = l.bits.items;
    } };

    ghost invariant = { λ l. IsPlan (record {
      assets = l.assets;
      accounts = l.accounts;
      offers = l.offers;
      names = l.names.items;
      shards = l.shards;
      purses = l.purses.items;
      bits = l.bits.items;
    }) };
}

impl Layout {
    /// The layout for the candidates of a ledger, at most 1,000,000, on 1 to 64 shards. It may answer
    /// `NoMemory`. No other call of a layout takes memory.
    pub fn new(
        alloc: Global,
        ledger: &Ledger,
        candidates: &[Tx],
        shards: u32,
    ) -> Result<Layout, NoMemory>
        requires candidates { length candidates.now ≤ most_transactions }
        requires some_shard { 1 ≤ shards }
        requires few_shards { shards ≤ 64 }
        ensures plan { IfOk result (λ layout. layout ≡ plan_of ledger.now candidates.now shards) }
        ensures laid_out { IfOk result (λ layout. IsLaidOut ledger.now candidates.now shards) }
    {
        let names = new_ids(alloc, candidates)?;
        let Opening { purses, bits } = opening_words(alloc, ledger, &names, shards)?;
        Ok(Layout {
            assets: ledger.assets(),
            accounts: ledger.accounts(),
            offers: ledger.offers(),
            shards,
            names,
            purses,
            bits,
        })
    }

    /// The number of shards.
    pub fn shards(&self) -> u32
        ensures { result ≡ self.now.shards }
    {
        self.shards
    }

    /// The purse of the balance that the account at a place has of an asset. Its `word` counts among the
    /// purses of its shard.
    pub fn purse_of(&self, place: u32, asset: AssetId) -> Spot
        requires place { place < self.now.accounts }
        requires asset { asset < self.now.assets }
        ensures { result ≡ purse_spot self.now place asset }
    {
        Spot {
            shard: place % self.shards,
            word: place / self.shards * self.assets + u32::from(asset.get()),
        }
    }

    /// The bit word of the sequence numbers of the account at a place: bit i is the number `last + 1 + i`.
    pub fn window_of(&self, place: u32) -> Spot
        requires { place < self.now.accounts }
        ensures { result ≡ window_spot self.now place }
    {
        Spot {
            shard: place % self.shards,
            word: place / self.shards,
        }
    }

    // How many bit words of a shard are of sequence numbers.
    fn window_words(&self, shard: u32) -> u32
        requires { shard < self.now.shards }
        ensures words { result ≡ window_words self.now shard }
        ensures few { result ≤ 65536 }
    {
        share_of(self.shards, shard, self.accounts)
    }

    // How many bit words of a shard are of offers.
    fn offer_words(&self, shard: u32) -> u32
        requires { shard < self.now.shards }
        ensures words { result ≡ offer_words self.now shard }
        ensures few { result ≤ 262144 }
    {
        share_of(self.shards, shard, words_for(self.offers))
    }

    /// The bit of the offer at a place: its word, and its place in the word, below 64.
    pub fn offer_of(&self, place: u32) -> (Spot, u32)
        requires { place < self.now.offers }
        ensures { result ≡ offer_spot self.now place }
    {
        let word = place / 64;
        let shard = word % self.shards;
        let spot = Spot {
            shard,
            word: self.window_words(shard) + word / self.shards,
        };
        (spot, place % 64)
    }

    /// The bit of a new id: its word, and its place in the word, below 64. `None` comes exactly where no
    /// candidate creates the id. The search takes as many steps as the number of new ids has binary
    /// digits.
    pub fn name_of(&self, id: AccountId) -> Option<(Spot, u32)>
        ensures { result ≡ name_found self.now id.0 }
    {
        match self.names.binary_search(&id.0) {
            Ok(index) => Some(self.name_at(index as u32)),
            Err(_) => None,
        }
    }

    // The bit of the new id at an index.
    fn name_at(&self, index: u32) -> (Spot, u32)
        requires { index < length self.now.names }
        ensures { result ≡ name_spot self.now index }
    {
        let word = index / 64;
        let shard = word % self.shards;
        let before = self.window_words(shard) + self.offer_words(shard);
        let spot = Spot {
            shard,
            word: before + word / self.shards,
        };
        (spot, index % 64)
    }

    /// The purses of a shard at the opening.
    pub fn opening_purses(&self, shard: u32) -> &[u64]
        requires { shard < self.now.shards }
        ensures { result.now ≡ words_of self.now.purses shard }
    {
        self.purses[shard as usize].items()
    }

    /// The bit words of a shard at the opening.
    pub fn opening_bits(&self, shard: u32) -> &[u64]
        requires { shard < self.now.shards }
        ensures { result.now ≡ words_of self.now.bits shard }
    {
        self.bits[shard as usize].items()
    }
}
