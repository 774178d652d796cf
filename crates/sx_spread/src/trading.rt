//! Trading at the prices of a block.

ghost use Rattle.std.specs.Prelude.{◌≡◌, ◌<◌, ◌≤◌, IfOk};
ghost use Rattle.sx_apply.specs.Trading.{CanExecute};
ghost use Rattle.sx_fill.specs.AllFills.{all_fills};
ghost use Rattle.sx_ledger.specs.Fills.{Flow};
ghost use Rattle.sx_ledger.specs.Ledger.{most_height};
ghost use Rattle.sx_ledger.specs.Trade.{traded};

use crate::paying::pay_parts;
use crate::sharing::sharers;
use std::alloc::Global;
use std::thread::Threads;
use sx_apply::settle;
use sx_base::Balances;
use sx_bytes::NoMemory;
use sx_ledger::{Accounts, Fill, Ledger, Parts};
use sx_price::Prices;

/// The ledger after trading at these prices, with this rounding, from what each offer trades: these are the fills of
/// all its offers, for some flow that can trade. At most `workers` threads, each with a part of the accounts, credit
/// the sellers with what they get. On one thread offers lose what they give, and those with nothing left are gone;
/// the rounding is kept, the prices are the ledger's, and the height rises by one. Accounts and offers change in
/// place.
///
/// How many workers there are does not change the answer: it is that of [`execute`](sx_apply::execute). Where there
/// are few fills, no thread is started. At `NoMemory`, which is the only error, the ledger is gone.
pub fn par_execute<R: Threads + Sync>(
    rt: &R,
    alloc: Global,
    ledger: Ledger,
    prices: &Prices,
    rounding: &Balances,
    fills: &[Fill],
    workers: u32,
) -> Result<Ledger, NoMemory>
    requires below_last { ledger.height < most_height }
    requires fills { CanExecute ledger prices.now rounding.now fills.now }
    requires some_worker { 1 ≤ workers }
    ensures { (flow : Flow) → fills.now ≡ all_fills prices.now flow ledger.offers → IfOk result (λ after. after ≡ traded ledger prices.now flow rounding.now) }
{
    let Parts {
        version,
        height,
        prices: last,
        rounding: kept,
        accounts,
        offers,
    } = ledger.into_parts();
    let mut accounts = accounts.into_items();
    let threads = sharers(fills.len(), workers);
    pay_parts(rt, alloc, offers.items(), fills, threads, &mut accounts)?;
    let paid = Parts {
        version,
        height,
        prices: last,
        rounding: kept,
        accounts: Accounts::of(accounts),
        offers,
    };
    settle(alloc, paid, prices, rounding, fills)
}
