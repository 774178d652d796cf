//! The header of a block.

ghost use Rattle.std.specs.Prelude.{◌≡◌, ◌+◌, ◌^◌, ◌<◌, ◌≤◌, All, length};
ghost use Rattle.sx_block.specs.Digest.{IsDigest};
ghost use Rattle.sx_block.specs.Validity.{IsValid};
ghost use Rattle.sx_clear.specs.Digests.{AreDigests};
ghost use Rattle.sx_clear.specs.Terms.{AreTerms};
ghost use Rattle.sx_ledger.specs.Body.{IsAdmissible};
ghost use Rattle.sx_ledger.specs.Ledger.{IsLedger, most_height};
ghost use Rattle.sx_tx.specs.Transactions.{IsTx, most_transactions};

use crate::prices::Digests;
use crate::trade::Trade;
use std::snapshot::Snapshot;
use sx_base::Balances;
use sx_block::{Block, Digest, Header};
use sx_dual::Potentials;
use sx_ledger::Ledger;
use sx_price::{Mu, Prices};
use sx_tx::TxList;

// At which terms a body trades, and the digest of the ledger that is left.
#[derive(Drop)]
pub struct Terms {
    pub mu: Mu,
    pub prices: Prices,
    pub trade: Trade,
    pub rounding: Balances,
    pub after: Digest,
}

// All potentials are in the range of their type. It does nothing when it runs.
#[inline]
fn potential_ranges(potentials: &Potentials)
    ensures { All (λ potential. potential < 2 ^ 32) potentials.now }
{
    for potential in potentials.items() {
        let _potential = *potential;
    }
}

// The block of a body of a ledger, of which nothing but a snapshot is left, at these terms, where these are its digests.
pub fn block_of(
    ledger: Snapshot<Ledger>,
    height: u64,
    txs: TxList,
    digests: Digests,
    terms: Terms,
) -> Block
    requires kept { IsLedger ledger.value }
    requires admissible { IsAdmissible ledger.value txs }
    requires few { length txs ≤ most_transactions }
    requires each { All IsTx txs }
    requires below_last { ledger.value.height < most_height }
    requires height { height ≡ ledger.value.height + 1 }
    requires digests { AreDigests ledger.value txs digests }
    requires terms { AreTerms ledger.value txs terms }
    requires digest { IsDigest terms.after }
    ensures valid { IsValid ledger.value result }
    ensures version { result.header.version ≡ 1 }
    ensures txs { result.txs ≡ txs }
    ensures mu { result.header.mu ≡ terms.mu }
    ensures prices { result.header.prices ≡ terms.prices }
{
    let Terms {
        mu,
        prices,
        trade,
        rounding,
        after,
    } = terms;
    // The flow, the potentials and the margin keep what their types keep.
    let _assets = trade.flow.assets();
    let _exponent = mu.get();
    potential_ranges(&trade.potentials);
    let header = Header {
        version: 1,
        height,
        parent: digests.parent,
        body: digests.body,
        mu,
        prices,
        trades: trade.flow,
        dropped: trade.dropped,
        potentials: trade.potentials,
        rounding,
        after,
    };
    Block { header, txs }
}
