//! The digest of what a block leaves of a ledger.

ghost use Rattle.std.specs.Prelude.{◌≡◌, List, ◌<◌, ◌≤◌, IfOk};
ghost use Rattle.sx_block.specs.Digest.{IsDigest};
ghost use Rattle.sx_block.specs.Validity.{digest_of_ledger};
ghost use Rattle.sx_clear.specs.Found.{CanLeave, IsBodyOf};
ghost use Rattle.sx_fill.specs.AllFills.{all_fills};
ghost use Rattle.sx_ledger.specs.Body.{IsAdmissible, body_after};
ghost use Rattle.sx_ledger.specs.Fills.{Flow};
ghost use Rattle.sx_ledger.specs.Ledger.{most_height};
ghost use Rattle.sx_ledger.specs.Trade.{traded};
ghost use Rattle.sx_tx.specs.declared.tx.Tx.{Tx};

use crate::prices::Body;
use std::alloc::Global;
use std::thread::Threads;
use sx_apply::execute;
use sx_base::Balances;
use sx_block::Digest;
use sx_bytes::NoMemory;
use sx_digests::{ledger_digest, par_ledger_digest};
use sx_ledger::{Fill, Ledger};
use sx_price::Prices;
use sx_spread::{par_apply_accounts, par_execute};
use sx_tally::apply_accounts;

/// The digest of what a body and these fills of the offers after it leave of a ledger, which is let go: the ledger
/// after the body, traded at these prices, with what rounding keeps of each asset. `NoMemory` is the only error.
pub fn digest_after(
    alloc: Global,
    ledger: Ledger,
    body: Body,
    prices: &Prices,
    rounding: &Balances,
    fills: &[Fill],
) -> Result<Digest, NoMemory>
    requires below_last { ledger.height < most_height }
    requires body { CanLeave ledger body prices.now rounding.now fills.now }
    ensures hash { (txs : List Tx) (flow : Flow) → IsAdmissible ledger txs → IsBodyOf ledger txs body → fills.now ≡ all_fills prices.now flow (body_after ledger txs).offers → IfOk result (λ digest. digest ≡ digest_of_ledger (traded (body_after ledger txs) prices.now flow rounding.now)) }
    ensures digest { IfOk result IsDigest }
{
    let Body { tally, offers } = body;
    let with_body = apply_accounts(alloc, ledger, &tally, offers)?;
    let left = execute(alloc, with_body, prices, rounding, fills)?;
    ledger_digest(alloc, &left)
}

/// The same as [`digest_after`], with at most so many threads that change the accounts and credit the sellers, and one
/// that encodes the offers that are left if these are many. How many workers there are does not change the answer.
pub fn par_digest_after<R: Threads + Sync>(
    rt: &R,
    alloc: Global,
    ledger: Ledger,
    body: Body,
    prices: &Prices,
    rounding: &Balances,
    fills: &[Fill],
    workers: u32,
) -> Result<Digest, NoMemory>
    requires some_worker { 1 ≤ workers }
    requires below_last { ledger.height < most_height }
    requires body { CanLeave ledger body prices.now rounding.now fills.now }
    ensures hash { (txs : List Tx) (flow : Flow) → IsAdmissible ledger txs → IsBodyOf ledger txs body → fills.now ≡ all_fills prices.now flow (body_after ledger txs).offers → IfOk result (λ digest. digest ≡ digest_of_ledger (traded (body_after ledger txs) prices.now flow rounding.now)) }
    ensures digest { IfOk result IsDigest }
{
    let Body { tally, offers } = body;
    let with_body = par_apply_accounts(rt, alloc, ledger, &tally, offers, workers)?;
    let left = par_execute(rt, alloc, with_body, prices, rounding, fills, workers)?;
    par_ledger_digest(rt, alloc, &left)
}

/// The digest of what a body and these fills of the offers after it leave of a copy of the ledger. `NoMemory` is the
/// only error.
pub fn digest_left(
    alloc: Global,
    ledger: &Ledger,
    body: Body,
    prices: &Prices,
    rounding: &Balances,
    fills: &[Fill],
) -> Result<Digest, NoMemory>
    requires below_last { ledger.now.height < most_height }
    requires body { CanLeave ledger.now body prices.now rounding.now fills.now }
    ensures hash { (txs : List Tx) (flow : Flow) → IsAdmissible ledger.now txs → IsBodyOf ledger.now txs body → fills.now ≡ all_fills prices.now flow (body_after ledger.now txs).offers → IfOk result (λ digest. digest ≡ digest_of_ledger (traded (body_after ledger.now txs) prices.now flow rounding.now)) }
    ensures digest { IfOk result IsDigest }
{
    let copy = ledger.copy()?;
    digest_after(alloc, copy, body, prices, rounding, fills)
}
