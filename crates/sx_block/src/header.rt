//! A block: what it says of itself, and its transactions.

use crate::digest::Digest;
use sx_base::Balances;
use sx_dual::{Cut, Flow, Potentials};
use sx_price::{Mu, Prices};
use sx_tx::TxList;

/// What a block says of itself.
#[derive(Debug, Drop)]
pub struct Header {
    /// The version, 1 or 2: whether transactions may spend what the block credits, which they may in 2.
    pub version: u8,
    /// How many blocks there are up to this one.
    pub height: u64,
    /// The digest of the ledger before the block.
    pub parent: Digest,
    /// The digest of the transactions.
    pub body: Digest,
    /// The margin by which an offer must trade.
    pub mu: Mu,
    /// The price of each asset, in units of `2^-24`.
    pub prices: Prices,
    /// The value that each pair of assets trades, in units of `2^-24`.
    pub trades: Flow,
    /// Where lower bounds were dropped, the set of assets that shows why.
    pub dropped: Option<Cut>,
    /// The potential of each asset, which shows that no more value could be traded.
    pub potentials: Potentials,
    /// The whole units of each asset that rounding keeps.
    pub rounding: Balances,
    /// The digest of the ledger after the block.
    pub after: Digest,
}

/// A block: its header, and its transactions by account and sequence number.
#[derive(Debug, Drop)]
pub struct Block {
    pub header: Header,
    pub txs: TxList,
}
