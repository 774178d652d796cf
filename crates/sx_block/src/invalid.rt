//! Why a block is refused.

ghost use Rattle.std.specs.Prelude.{◌≡◌};
ghost use Rattle.sx_block.specs.Invalid.{number_of, reason_of};

use crate::Digest;
use sx_base::{AccountId, AssetId};
use sx_dual::{Cut, Misfit};
use sx_ledger::Static;
use thiserror::Error;

/// Why a block is refused on a ledger. Where several reasons hold, the first counts.
#[derive(Clone, Copy, Debug, PartialEq, Eq, Error)]
pub enum Invalid {
    /// 1: the ledger has the greatest height, `2^63 - 1`, so no block may follow.
    #[error("no block may follow: the ledger has the greatest height")]
    Ended,
    /// 2: the ledger has the height `have`, and the block says another than the next one.
    #[error("the height is {said}, and that of the ledger {have}")]
    WrongHeight {
        have: u64,
        said: u64,
    },
    /// 3: the block says that it follows a ledger of the digest `said`, and the ledger's is `real`.
    #[error("another ledger is said to be the parent")]
    WrongParent {
        said: Digest,
        real: Digest,
    },
    /// 4: the block says that its transactions have the digest `said`, and they have `real`.
    #[error("the transactions have another digest than is said")]
    WrongBody {
        said: Digest,
        real: Digest,
    },
    /// 5: the ledger has `have` assets, and the header speaks of `said`.
    #[error("the header speaks of {said} assets, and the ledger has {have}")]
    WrongAssets {
        have: u32,
        said: u32,
    },
    /// 6: the first transaction that the ledger refuses by itself.
    #[error("transaction {index}: {why}")]
    Tx {
        index: u32,
        why: Static,
    },
    /// 7: the first transaction that cancels an offer that one before it cancels.
    #[error("transaction {index} cancels an offer that one before it cancels")]
    TwoCancels {
        index: u32,
    },
    /// 8: the first transaction that creates an account that one before it creates.
    #[error("transaction {index} creates an account that one before it creates")]
    TwoNames {
        index: u32,
    },
    /// 9: the ledger has `have` accounts and the block creates `more`, together above `limit`; else
    /// the same of offers.
    #[error("there are {have} already and {more} come, above the limit {limit}")]
    Crowded {
        have: u32,
        more: u32,
        limit: u32,
    },
    /// 10, where the block is of version 1: the first account, by its id, and asset of which the
    /// transactions debit more than the account holds at the opening. Both are whole units of the asset.
    #[error("account {} is debited {debits} of asset {} and has {opening}", .account.0, .asset.get())]
    Overdrawn {
        account: AccountId,
        asset: AssetId,
        opening: u64,
        debits: u128,
    },
    /// 17, in the place of 10 where the block is of version 2: the first account, by its id, and asset of
    /// which the transactions debit more than the account holds at the opening and is credited by them.
    /// All three are whole units of the asset.
    #[error("account {} is debited {debits} of asset {}, has {opening} and is credited {credits}", .account.0, .asset.get())]
    Overspent {
        account: AccountId,
        asset: AssetId,
        opening: u64,
        credits: u128,
        debits: u128,
    },
    /// 11: the first pair, by the sold and then the bought asset, that trades less than its lower
    /// bound or more than its upper one. The three are values, in units of `2^-24`.
    #[error("asset {} for asset {}: the value {y} is not between {low} and {high}", .sell.get(), .buy.get())]
    Outside {
        sell: AssetId,
        buy: AssetId,
        low: u128,
        high: u128,
        y: u128,
    },
    /// 12: the first asset of which the value sold, `out`, is not the value bought, `into`, both in
    /// units of `2^-24`.
    #[error("asset {}: the value {out} is sold and {into} is bought", .asset.get())]
    Unbalanced {
        asset: AssetId,
        out: u128,
        into: u128,
    },
    /// 13: the first pair that has a gain above 0 and trades less than it may, or a gain below 0 and
    /// trades more than it must. `y` is the value that it trades, in units of `2^-24`.
    #[error("asset {} for asset {}: the value {y} does not suit the gain {gain}", .sell.get(), .buy.get())]
    Slack {
        sell: AssetId,
        buy: AssetId,
        gain: i64,
        y: u128,
    },
    /// 14: the header says that lower bounds were dropped, and its set of assets is no cut of the
    /// bounds with the lower ones in place.
    #[error("the set {} of assets is no cut", .cut.0)]
    NoCut {
        cut: Cut,
    },
    /// 15: the first asset of which the block says that rounding keeps `said` units, and the fills
    /// keep `real`.
    #[error("asset {}: rounding keeps {real} units, and {said} are said", .asset.get())]
    Rounding {
        asset: AssetId,
        said: u64,
        real: u64,
    },
    /// 16: the block says that it leaves a ledger of the digest `said`, and it leaves one of `real`.
    #[error("another ledger is said to be left than is left")]
    WrongAfter {
        said: Digest,
        real: Digest,
    },
}

impl Invalid {
    /// The number of the reason, from 1 to 17.
    pub fn number(&self) -> u8
        ensures { result ≡ number_of self.now }
    {
        match self {
            Invalid::Ended => 1,
            Invalid::WrongHeight { .. } => 2,
            Invalid::WrongParent { .. } => 3,
            Invalid::WrongBody { .. } => 4,
            Invalid::WrongAssets { .. } => 5,
            Invalid::Tx { .. } => 6,
            Invalid::TwoCancels { .. } => 7,
            Invalid::TwoNames { .. } => 8,
            Invalid::Crowded { .. } => 9,
            Invalid::Overdrawn { .. } => 10,
            Invalid::Overspent { .. } => 17,
            Invalid::Outside { .. } => 11,
            Invalid::Unbalanced { .. } => 12,
            Invalid::Slack { .. } => 13,
            Invalid::NoCut { .. } => 14,
            Invalid::Rounding { .. } => 15,
            Invalid::WrongAfter { .. } => 16,
        }
    }
}

impl From<Misfit> for Invalid {
    ghost from_gives = { λ misfit why. why ≡ reason_of misfit };

    fn from(misfit: Misfit) -> Invalid {
        match misfit {
            Misfit::Outside {
                sell,
                buy,
                low,
                high,
                y,
            } => Invalid::Outside {
                sell,
                buy,
                low,
                high,
                y,
            },
            Misfit::Unbalanced { asset, out, into } => Invalid::Unbalanced { asset, out, into },
            Misfit::Slack { sell, buy, gain, y } => Invalid::Slack { sell, buy, gain, y },
        }
    }
}
