//! Blocks from bodies on a ledger that is needed no more.

ghost use Rattle.std.specs.Prelude.{◌≡◌, ◌+◌, ◌<◌, ◌≤◌, All, IfOk, length};
ghost use Rattle.sx_block.specs.Validity.{IsValid, digest_of_ledger, flow_of_block, high_in, low_in};
ghost use Rattle.sx_digests.specs.StateDigest.{IsWhole, digest_in};
ghost use Rattle.sx_clear.specs.Digests.{IsBodyDigest};
ghost use Rattle.sx_block.specs.Dropping.{DropsExactly};
ghost use Rattle.sx_clear.specs.Found.{IsBodyOf};
ghost use Rattle.sx_multi.specs.Quotes.{imbalance_at, posted_at};
ghost use Rattle.sx_clear.specs.Searches.{IsCounted};
ghost use Rattle.sx_clear.specs.Trading.{IsTrading};
ghost use Rattle.sx_dual.specs.Circulation.{IsGreatest};
ghost use Rattle.sx_ledger.specs.Body.{IsAdmissible};
ghost use Rattle.sx_ledger.specs.Ledger.{assets_of, most_height};
ghost use Rattle.sx_price.specs.Limits.{IsPrice};
ghost use Rattle.sx_clear.specs.TradeSearches.{most_clearing_searches};
ghost use Rattle.sx_tx.specs.Transactions.{list_bytes, most_transactions};

use crate::clearing::{Trading, trade_body};
use crate::filling::Filled;
use crate::heading::{Terms, block_of};
use crate::leaving::par_digest_after;
use crate::prices::{Body, Digests, Opened, Search, WORKERS, written_and_opened};
use std::alloc::Global;
use std::snapshot::Snapshot;
use std::sync::ledger;
use std::thread::Threads;
use sx_block::{Block, Digest};
use sx_bytes::{NoMemory, Writer};
use sx_digests::{StateDigest, WrittenBody};
use sx_ledger::Ledger;
use sx_net::Steps;
use sx_price::{Mu, Prices};
use sx_tx::TxList;

/// A block, and the encoding of its transactions.
#[derive(Debug, Drop)]
pub struct Cleared {
    pub block: Block,
    pub list: Writer,
}

// The block of what a body trades. The ledger changes to what the block leaves, by threads where that is worth it, and
// is let go. The digest of the ledger before is waited for last.
fn closed<R: Threads + Sync>(
    rt: &R,
    alloc: Global,
    ledger: Ledger,
    parent: StateDigest,
    txs: TxList,
    hash: Digest,
    mu: Mu,
    body: Body,
    prices: Prices,
    trading: Trading,
) -> Result<Block, NoMemory>
    requires parent { digest_in parent ≡ digest_of_ledger ledger }
    requires whole { IsWhole parent }
    requires admissible { IsAdmissible ledger txs }
    requires few { length txs ≤ most_transactions }
    requires below_last { ledger.height < most_height }
    requires hash { IsBodyDigest txs hash }
    requires body { IsBodyOf ledger txs body }
    requires assets { length prices ≡ assets_of ledger }
    requires in_range { All IsPrice prices }
    requires trading { IsTrading ledger txs body prices mu trading }
    ensures valid { IfOk result (IsValid ledger) }
    ensures version { IfOk result (λ block. block.header.version ≡ 1) }
    ensures txs { IfOk result (λ block. block.txs ≡ txs) }
    ensures mu { IfOk result (λ block. block.header.mu ≡ mu) }
    ensures prices { IfOk result (λ block. block.header.prices ≡ prices) }
{
    let Trading { trade, filled } = trading;
    let Filled { fills, rounding } = filled;
    let height = ledger.height() + 1;
    let snapshot = Snapshot::of(&ledger);
    let after = par_digest_after(
        rt,
        alloc,
        ledger,
        body,
        &prices,
        &rounding,
        fills.items(),
        WORKERS,
    )?;
    let terms = Terms {
        mu,
        prices,
        trade,
        rounding,
        after,
    };
    let digests = Digests {
        parent: parent.wait(rt),
        body: hash,
    };
    Ok(block_of(snapshot, height, txs, digests, terms))
}

/// The block of a body at the prices of the best of 1 to 8 searches from those of the ledger, each of at most so many
/// rounds, by `search_many` of `sx_multi`. One search is that of [`clear`](crate::clear), and all that a block promises
/// is as there. The searches run on threads of their own.
///
/// The caller needs the ledger no more, and knows its digest or has a thread make it. The ledger changes in place to what the block leaves, and so no copy of it is made.
/// Threads change the accounts where there are many, and credit the sellers where many offers trade, each in a part of
/// the accounts. Where 32,768 offers or more are left, one encodes these, in 34 bytes each, while the accounts are
/// hashed. The call waits last of all for the thread that makes the digest. Where it fails before that, this thread is
/// let go.
///
/// Beside the block it answers the encoding of the transactions. It is written over `spare`, whose bytes are lost, and
/// takes memory only where that holds too little. With 8,192 transactions or more, a thread writes them while the prices
/// are searched, and has others hash what is written, one after the other. The call waits for all of these.
pub fn clear_in_place<R: Threads + Sync, L: ledger::Ledger>(
    rt: &R,
    alloc: Global,
    ledger: Ledger,
    parent: StateDigest,
    txs: TxList,
    mu: Mu,
    rounds: u32,
    searches: u32,
    spare: Writer,
    steps: &mut Steps<L>,
) -> Result<Cleared, NoMemory>
    requires parent { digest_in parent ≡ digest_of_ledger ledger }
    requires whole { IsWhole parent }
    requires admissible { IsAdmissible ledger txs }
    requires few { length txs ≤ most_transactions }
    requires below_last { ledger.height < most_height }
    requires some_search { 1 ≤ searches }
    requires few_searches { searches ≤ 8 }
    ensures valid { IfOk result (λ cleared. IsValid ledger cleared.block) }
    ensures version { IfOk result (λ cleared. cleared.block.header.version ≡ 1) }
    ensures txs { IfOk result (λ cleared. cleared.block.txs ≡ txs) }
    ensures mu { IfOk result (λ cleared. cleared.block.header.mu ≡ mu) }
    ensures prices { IfOk result (λ cleared. cleared.block.header.prices ≡ posted_at ledger cleared.block.txs mu rounds searches) }
    ensures mends { IfOk result (λ cleared. imbalance_at ledger cleared.block.txs mu cleared.block.header.prices ≤ imbalance_at ledger cleared.block.txs mu ledger.prices) }
    ensures greatest { IfOk result (λ cleared. IsGreatest (assets_of ledger) (low_in ledger cleared.block) (high_in ledger cleared.block) (flow_of_block cleared.block)) }
    ensures dropped { IfOk result (λ cleared. DropsExactly ledger cleared.block) }
    ensures list { IfOk result (λ cleared. cleared.list ≡ list_bytes cleared.block.txs) }
    ensures counted { IfOk result (λ cleared. IsCounted ledger steps.old steps.new cleared.block) }
    ensures limited { steps.new ≤ steps.old + most_clearing_searches }
    ensures rising { steps.old ≤ steps.new }
{
    let by = Search {
        mu,
        rounds,
        searches,
    };
    let (written, opened) = written_and_opened(rt, alloc, &ledger, txs.items(), by, spare)?;
    let Opened {
        body,
        prices,
        bounds,
    } = opened;
    let trading = trade_body(
        alloc,
        &ledger,
        txs.items(),
        mu,
        &body,
        &prices,
        bounds,
        steps,
    )?;
    let WrittenBody { list, digest } = written;
    let block = closed(
        rt, alloc, ledger, parent, txs, digest, mu, body, prices, trading,
    )?;
    Ok(Cleared { block, list })
}
