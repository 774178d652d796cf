//! Blocks from bodies.

ghost use Rattle.std.specs.Prelude.{◌≡◌, ◌+◌, ◌<◌, ◌≤◌, All, IfOk, length};
ghost use Rattle.sx_block.specs.Validity.{IsValid, flow_of_block, high_in, low_in};
ghost use Rattle.sx_block.specs.Dropping.{DropsExactly};
ghost use Rattle.sx_clear.specs.Found.{HasBoundsAt, IsBodyOf};
ghost use Rattle.sx_multi.specs.Quotes.{imbalance_at, searched_at};
ghost use Rattle.sx_clear.specs.Searches.{IsCounted};
ghost use Rattle.sx_clear.specs.Trading.{IsCountedAt, IsTrading};
ghost use Rattle.sx_dual.specs.Circulation.{IsGreatest};
ghost use Rattle.sx_ledger.specs.Body.{IsAdmissible};
ghost use Rattle.sx_ledger.specs.Ledger.{IsLedger, assets_of, most_height};
ghost use Rattle.sx_price.specs.Limits.{IsPrice};
ghost use Rattle.sx_clear.specs.TradeSearches.{most_clearing_searches};
ghost use Rattle.sx_tx.specs.Transactions.{most_transactions};

use crate::clearing_in_place::clear_in_place;
use crate::filling::{Filled, fill};
use crate::heading::{Terms, block_of};
use crate::leaving::digest_left;
use crate::prices::{
    Body, Digests, Opened, digest_of_body, digest_of_parent, open_at, price_ranges,
};
use crate::trade::{Trade, trade_within};
use std::alloc::Global;
use std::snapshot::Snapshot;
use std::sync::ledger;
use std::thread::Threads;
use sx_block::Block;
use sx_bytes::{NoMemory, Writer};
use sx_digests::{StateDigest, ledger_digest};
use sx_dual::Bounds;
use sx_ledger::Ledger;
use sx_multi::posted_laws;
use sx_net::Steps;
use sx_price::{Mu, Prices};
use sx_tx::{Tx, TxList};

// What a body trades at the prices that are found, and what each offer and rounding keep of it.
#[derive(Drop)]
pub struct Trading {
    pub trade: Trade,
    pub filled: Filled,
}

// What the offers after a body trade at the prices that are found, within the bounds at these.
pub fn trade_body<L: ledger::Ledger>(
    alloc: Global,
    ledger: &Ledger,
    txs: &[Tx],
    mu: Mu,
    body: &Body,
    prices: &Prices,
    bounds: Bounds,
    steps: &mut Steps<L>,
) -> Result<Trading, NoMemory>
    requires admissible { IsAdmissible ledger.now txs.now }
    requires assets { length prices.now ≡ assets_of ledger.now }
    requires body { IsBodyOf ledger.now txs.now body.now }
    requires bounds { HasBoundsAt ledger.now txs.now prices.now mu bounds }
    ensures kept { IsLedger ledger.now }
    ensures in_range { All IsPrice prices.now }
    ensures trading { IfOk result (IsTrading ledger.now txs.now body.now prices.now mu) }
    ensures counted { IsCountedAt ledger.now txs.now prices.now steps.old steps.new }
    ensures limited { steps.new ≤ steps.old + most_clearing_searches }
    ensures rising { steps.old ≤ steps.new }
{
    let _height = ledger.height();
    price_ranges(prices);
    let trade = trade_within(alloc, bounds, steps)?;
    let filled = fill(alloc, body.offers.after(ledger), prices, &trade.flow)?;
    Ok(Trading { trade, filled })
}

/// The block of a body at these prices, one for each asset of the ledger: a valid one, with a circulation
/// of greatest value within the bounds of the offers after the body, at the margin `mu`. Lower bounds are
/// dropped exactly where no circulation keeps them. The body has at most 1,000,000 transactions, and the
/// ledger is below the last height. `NoMemory` is the only error. It works on a copy of the ledger to know
/// what the block leaves.
///
/// `steps` counts the searches of the circulation. For n assets and upper bounds below `2^b` these are at
/// most twice `(n + 1)(b + 1)(4n(n + 1) + 1)`, and never more than 29,000,400, whatever is answered.
pub fn clear_at<L: ledger::Ledger>(
    alloc: Global,
    ledger: &Ledger,
    txs: TxList,
    mu: Mu,
    prices: &Prices,
    steps: &mut Steps<L>,
) -> Result<Block, NoMemory>
    requires admissible { IsAdmissible ledger.now txs }
    requires few { length txs ≤ most_transactions }
    requires below_last { ledger.now.height < most_height }
    requires prices { length prices.now ≡ assets_of ledger.now }
    ensures valid { IfOk result (IsValid ledger.now) }
    ensures version { IfOk result (λ block. block.header.version ≡ 1) }
    ensures txs { IfOk result (λ block. block.txs ≡ txs) }
    ensures mu { IfOk result (λ block. block.header.mu ≡ mu) }
    ensures prices { IfOk result (λ block. block.header.prices ≡ prices.now) }
    ensures greatest { IfOk result (λ block. IsGreatest (assets_of ledger.now) (low_in ledger.now block) (high_in ledger.now block) (flow_of_block block)) }
    ensures dropped { IfOk result (DropsExactly ledger.now) }
    ensures counted { IfOk result (IsCounted ledger.now steps.old steps.new) }
    ensures limited { steps.new ≤ steps.old + most_clearing_searches }
    ensures rising { steps.old ≤ steps.new }
{
    let hash = digest_of_body(alloc, txs.items())?;
    let Opened {
        body,
        prices,
        bounds,
    } = open_at(alloc, ledger, txs.items(), prices, mu)?;
    let Trading { trade, filled } = trade_body(
        alloc,
        ledger,
        txs.items(),
        mu,
        &body,
        &prices,
        bounds,
        steps,
    )?;
    let Filled { fills, rounding } = filled;
    let parent = digest_of_parent(alloc, ledger)?;
    let after = digest_left(alloc, ledger, body, &prices, &rounding, fills.items())?;
    let digests = Digests { parent, body: hash };
    let terms = Terms {
        mu,
        prices,
        trade,
        rounding,
        after,
    };
    let height = ledger.height() + 1;
    Ok(block_of(Snapshot::of(ledger), height, txs, digests, terms))
}

/// The block of a body at the prices that the search from those of the ledger ends at, in at most so many
/// rounds. The sum over all assets of what is wanted or sold in excess is at most that at the ledger's
/// prices. With 0 rounds the prices are the ledger's own, and no curves are built. All else is as in
/// [`clear_at`]: it is [`clear_in_place`] with one search, on a copy of the ledger.
pub fn clear<R: Threads + Sync, L: ledger::Ledger>(
    rt: &R,
    alloc: Global,
    ledger: &Ledger,
    txs: TxList,
    mu: Mu,
    rounds: u32,
    steps: &mut Steps<L>,
) -> Result<Block, NoMemory>
    requires admissible { IsAdmissible ledger.now txs }
    requires few { length txs ≤ most_transactions }
    requires below_last { ledger.now.height < most_height }
    ensures valid { IfOk result (IsValid ledger.now) }
    ensures version { IfOk result (λ block. block.header.version ≡ 1) }
    ensures txs { IfOk result (λ block. block.txs ≡ txs) }
    ensures mu { IfOk result (λ block. block.header.mu ≡ mu) }
    ensures prices { IfOk result (λ block. block.header.prices ≡ searched_at ledger.now block.txs mu rounds) }
    ensures mends { IfOk result (λ block. imbalance_at ledger.now block.txs mu block.header.prices ≤ imbalance_at ledger.now block.txs mu ledger.now.prices) }
    ensures greatest { IfOk result (λ block. IsGreatest (assets_of ledger.now) (low_in ledger.now block) (high_in ledger.now block) (flow_of_block block)) }
    ensures dropped { IfOk result (DropsExactly ledger.now) }
    ensures counted { IfOk result (IsCounted ledger.now steps.old steps.new) }
    ensures limited { steps.new ≤ steps.old + most_clearing_searches }
    ensures rising { steps.old ≤ steps.new }
{
    posted_laws();
    let copy = ledger.copy()?;
    let parent = StateDigest::Known(ledger_digest(alloc, ledger)?);
    let spare = Writer::new(alloc);
    let cleared = clear_in_place(rt, alloc, copy, parent, txs, mu, rounds, 1, spare, steps)?;
    Ok(cleared.block)
}
