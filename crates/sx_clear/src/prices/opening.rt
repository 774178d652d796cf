//! What is found of a body before it is cleared: its encoding and digest, what it does, the prices, and the bounds at
//! these.

ghost use Rattle.std.specs.Prelude.{◌≡◌, ◌≤◌, false, IfOk, length};
ghost use Rattle.sx_fill.specs.Bounds.{AreOffers, HasBounds};
ghost use Rattle.sx_clear.specs.Digests.{IsWrittenBody};
ghost use Rattle.sx_clear.specs.Found.{HasBoundsAt, IsBodyOf};
ghost use Rattle.sx_multi.specs.Quotes.{posted_at, quotes_of};
ghost use Rattle.sx_dual.specs.Tables.{IsAssetCount};
ghost use Rattle.sx_ledger.specs.Body.{IsAdmissible};
ghost use Rattle.sx_ledger.specs.Bounds.{high_of, low_of};
ghost use Rattle.sx_ledger.specs.Ledger.{assets_of};
ghost use Rattle.sx_multi.specs.Posted.{posted as posted_of};
ghost use Rattle.sx_tx.specs.Transactions.{most_transactions};

use crate::prices::body::{Body, body_of, par_body_of};
use crate::prices::bounding::bounds_by_curves;
use crate::prices::curves::offer_curves;
use crate::prices::digests::written_body;
use crate::prices::ranges::price_ranges;
use std::alloc::Global;
use std::thread::Threads;
use sx_bytes::{NoMemory, Writer};
use sx_digests::WrittenBody;
use sx_dual::Bounds;
use sx_fill::bounds_of;
use sx_fork::fork;
use sx_ledger::{Ledger, Offer};
use sx_multi::{posted_laws, search_many};
use sx_price::{Mu, Prices};
use sx_tx::Tx;

// From how many transactions on a thread writes and hashes them beside the search. That takes a millisecond there, and to
// start a thread a small part of one.
const MANY_TRANSACTIONS: usize = 1 << 13;

/// At most how many threads look up the accounts and offers that a body names, change the accounts, and credit the
/// sellers. The answer is the same for every number.
pub const WORKERS: u32 = 4;

// The same prices once more.
fn copy_of(alloc: Global, prices: &Prices) -> Result<Prices, NoMemory>
    ensures { IfOk result (λ copy. copy ≡ prices.now) }
{
    Ok(Prices::of(prices.items().to_vec(alloc)?))
}

/// How prices are searched: at which margin, in at most how many rounds, and by how many searches.
#[derive(Clone, Copy, Debug)]
pub struct Search {
    pub mu: Mu,
    pub rounds: u32,
    pub searches: u32,
}

// The prices of the best of the searches from those of the ledger, and the bounds of each pair at them. With no round
// the prices are the ledger's own, and the bounds are summed up over the offers. Else the curves tell them, whose memory
// is given back here.
fn posted<R: Threads + Sync>(
    rt: &R,
    alloc: Global,
    ledger: &Ledger,
    assets: u32,
    offers: &[Offer],
    by: Search,
) -> Result<(Prices, Bounds), NoMemory>
    requires assets { assets ≡ assets_of ledger.now }
    requires count { IsAssetCount assets }
    requires offers { AreOffers (assets_of ledger.now) offers.now }
    requires some { 1 ≤ by.searches }
    requires few { by.searches ≤ 8 }
    ensures prices { IfOk result (λ posted. posted.0
        ≡ posted_of (quotes_of offers.now) ledger.now.prices by.mu by.rounds by.searches) }
    ensures bounds { IfOk result (λ posted. HasBounds (assets_of ledger.now)
        (low_of posted.0 by.mu false offers.now) (high_of posted.0 offers.now) posted.1) }
{
    posted_laws();
    let start = &ledger.parts().prices;
    if by.rounds == 0 {
        let prices = copy_of(alloc, start)?;
        price_ranges(&prices);
        let bounds = bounds_of(alloc, offers, &prices, by.mu)?;
        return Ok((prices, bounds));
    }
    let curves = offer_curves(alloc, assets, offers)?;
    let prices = search_many(rt, alloc, &curves, start, by.mu, by.rounds, by.searches)?;
    let bounds = bounds_by_curves(alloc, &curves, &prices, by.mu)?;
    Ok((prices, bounds))
}

/// What a body does, prices for the offers after it, and the bounds of each pair at these prices.
#[derive(Drop)]
pub struct Opened {
    pub body: Body,
    pub prices: Prices,
    pub bounds: Bounds,
}

/// What a body does, and the bounds at prices that are given.
pub fn open_at(
    alloc: Global,
    ledger: &Ledger,
    txs: &[Tx],
    prices: &Prices,
    mu: Mu,
) -> Result<Opened, NoMemory>
    requires admissible { IsAdmissible ledger.now txs.now }
    requires assets { length prices.now ≡ assets_of ledger.now }
    ensures body { IfOk result (λ opened. IsBodyOf ledger.now txs.now opened.body) }
    ensures prices { IfOk result (λ opened. opened.prices ≡ prices.now) }
    ensures bounds { IfOk result (λ opened. HasBoundsAt ledger.now txs.now opened.prices mu opened.bounds) }
{
    let _height = ledger.height();
    let body = body_of(alloc, ledger, txs)?;
    let prices = copy_of(alloc, prices)?;
    price_ranges(&prices);
    let bounds = bounds_of(alloc, body.offers.after(ledger), &prices, mu)?;
    Ok(Opened {
        body,
        prices,
        bounds,
    })
}

// What a body does, and then the prices with their bounds.
fn open<R: Threads + Sync>(
    rt: &R,
    alloc: Global,
    ledger: &Ledger,
    txs: &[Tx],
    by: Search,
) -> Result<Opened, NoMemory>
    requires admissible { IsAdmissible ledger.now txs.now }
    requires some { 1 ≤ by.searches }
    requires few { by.searches ≤ 8 }
    ensures body { IfOk result (λ opened. IsBodyOf ledger.now txs.now opened.body) }
    ensures prices { IfOk result (λ opened. opened.prices ≡ posted_at ledger.now txs.now by.mu by.rounds by.searches) }
    ensures bounds { IfOk result (λ opened. HasBoundsAt ledger.now txs.now opened.prices by.mu opened.bounds) }
{
    let assets = ledger.assets();
    let body = par_body_of(rt, alloc, ledger, txs, WORKERS)?;
    let (prices, bounds) = posted(rt, alloc, ledger, assets, body.offers.after(ledger), by)?;
    Ok(Opened {
        body,
        prices,
        bounds,
    })
}

/// The encoding of a body, written over what is spare, and its digest, made by other threads if that is worth it, and
/// beside it what the body does, the prices and the bounds.
pub fn written_and_opened<R: Threads + Sync>(
    rt: &R,
    alloc: Global,
    ledger: &Ledger,
    txs: &[Tx],
    by: Search,
    spare: Writer,
) -> Result<(WrittenBody, Opened), NoMemory>
    requires admissible { IsAdmissible ledger.now txs.now }
    requires few { length txs.now ≤ most_transactions }
    requires some_search { 1 ≤ by.searches }
    requires few_searches { by.searches ≤ 8 }
    ensures written { IfOk result (λ found. IsWrittenBody txs.now found.0) }
    ensures body { IfOk result (λ found. IsBodyOf ledger.now txs.now found.1.body) }
    ensures prices { IfOk result (λ found. found.1.prices ≡ posted_at ledger.now txs.now by.mu by.rounds by.searches) }
    ensures bounds { IfOk result (λ found. HasBoundsAt ledger.now txs.now found.1.prices by.mu found.1.bounds) }
{
    if txs.len() < MANY_TRANSACTIONS {
        let written = written_body(rt, alloc, txs, spare)?;
        return Ok((written, open(rt, alloc, ledger, txs, by)?));
    }
    let (written, opened) = fork(
        rt,
        true,
        move || -> Result<WrittenBody, NoMemory>
            requires { length txs.now ≤ most_transactions }
            ensures { IfOk result (IsWrittenBody txs.entry.now) }
        { written_body(rt, alloc, txs, spare) },
        || -> Result<Opened, NoMemory>
            requires { IsAdmissible ledger.now txs.now × (1 ≤ by.searches) × (by.searches ≤ 8) }
            ensures body { IfOk result (λ opened. IsBodyOf ledger.entry.now txs.entry.now opened.body) }
            ensures prices { IfOk result (λ opened. opened.prices ≡ posted_at ledger.entry.now txs.entry.now by.mu by.rounds by.searches) }
            ensures bounds { IfOk result (λ opened. HasBoundsAt ledger.entry.now txs.entry.now opened.prices by.mu opened.bounds) }
        { open(rt, alloc, ledger, txs, by) },
    );
    Ok((written?, opened?))
}
