//! Trading at the prices of a header.

ghost use Rattle.std.specs.Prelude.{◌≡◌, ℕ, ◌+◌, ◌^◌, ◌<◌, IfOk, length, slice_index};
ghost use Rattle.sx_apply.specs.Paying.{CanSettle, with_sellers_paid};
ghost use Rattle.sx_apply.specs.Trading.{CanExecute, Clears, GetsItsValue, GivesItsValue, TradesInFull, TradesWithinLimits};
ghost use Rattle.sx_block.specs.Effects.{circulating};
ghost use Rattle.sx_dual.specs.Tables.{value_of};
ghost use Rattle.sx_fill.specs.AllFills.{all_fills};
ghost use Rattle.sx_ledger.specs.declared.parts.Parts.{Parts as Ledgers};
ghost use Rattle.sx_ledger.specs.Fills.{Flow};
ghost use Rattle.sx_ledger.specs.Ledger.{assets_of, most_height};
ghost use Rattle.sx_ledger.specs.Trade.{added, traded};

use crate::fills::fills_of;
use crate::lessening::lessened;
use crate::proceeds::with_proceeds;
use std::alloc::Global;
use sx_base::Balances;
use sx_block::Header;
use sx_bytes::NoMemory;
use sx_ledger::{Fill, Ledger, Offers, Parts};
use sx_price::Prices;

// Adds numbers one by one.
fn add_each(numbers: &mut [u64], more: &[u64])
    requires as_many { length more.now ≡ length numbers.old }
    requires fits { (k : ℕ) → k < length numbers.old → slice_index numbers.old k + slice_index more.now k < 2 ^ 64 }
    ensures { numbers.new ≡ added numbers.old more.now }
{
    for place in 0..numbers.len() {
        numbers[place] += more[place];
    }
}

// What a ledger keeps by rounding, with what a block keeps.
fn with_rounding(rounding: Balances, more: &[u64]) -> Balances
    requires as_many { length more.now ≡ length rounding }
    requires fits { (k : ℕ) → k < length rounding → slice_index rounding k + slice_index more.now k < 2 ^ 64 }
    ensures { result ≡ added rounding more.now }
{
    let mut numbers = rounding.into_items();
    add_each(&mut numbers, more);
    Balances::of(numbers)
}

/// The ledger after trading at these prices, with this rounding, from what each offer trades, if the sellers are
/// credited already ([`pay_sellers`](crate::pay_sellers)): offers lose what they give, and those with nothing
/// left are gone; the rounding is kept, the prices are the ledger's, and the height rises by one. Offers change
/// in place.
pub fn settle(
    alloc: Global,
    parts: Parts,
    prices: &Prices,
    rounding: &Balances,
    fills: &[Fill],
) -> Result<Ledger, NoMemory>
    requires { CanSettle parts prices.now rounding.now fills.now }
    ensures { (before : Ledgers) (flow : Flow) → parts ≡ with_sellers_paid fills.now before → fills.now ≡ all_fills prices.now flow before.offers → IfOk result (λ after. after ≡ traded before prices.now flow rounding.now) }
{
    let copy = Prices::of(prices.items().to_vec(alloc)?);
    Ok(Ledger::of(Parts {
        version: parts.version,
        height: parts.height + 1,
        prices: copy,
        rounding: with_rounding(parts.rounding, rounding.items()),
        accounts: parts.accounts,
        offers: Offers::of(lessened(parts.offers.into_items(), fills)),
    }))
}

/// The ledger after trading at these prices, with this rounding, from what each offer trades: these are
/// the fills of all its offers, for some flow that can trade. Offers lose what they give, and those with
/// nothing left are gone; sellers are credited with what they get; the rounding is kept, the prices are
/// the ledger's, and the height rises by one. Accounts and offers change in place.
pub fn execute(
    alloc: Global,
    ledger: Ledger,
    prices: &Prices,
    rounding: &Balances,
    fills: &[Fill],
) -> Result<Ledger, NoMemory>
    requires below_last { ledger.height < most_height }
    requires fills { CanExecute ledger prices.now rounding.now fills.now }
    ensures { (flow : Flow) → fills.now ≡ all_fills prices.now flow ledger.offers → IfOk result (λ after. after ≡ traded ledger prices.now flow rounding.now) }
{
    let Parts {
        version,
        height,
        prices: last,
        rounding: kept,
        accounts,
        offers,
    } = ledger.into_parts();
    let paid = Parts {
        version,
        height,
        prices: last,
        rounding: kept,
        accounts: with_proceeds(alloc, accounts, offers.items(), fills)?,
        offers,
    };
    settle(alloc, paid, prices, rounding, fills)
}

/// The ledger after trading at the prices of a header, for a ledger as it is after the body of the
/// header's block: offers lose what they give, and those with nothing left are gone; sellers are
/// credited with what they get; the header's rounding is kept, its prices are the ledger's, and the
/// height rises by one. The header's flow and potentials fit the bounds of the ledger's offers at its
/// prices, and its rounding is what the trade keeps. Accounts and offers change in place.
///
/// Each offer that trades may trade at the prices, and where the header drops no lower bound each offer
/// that must trade gives its whole amount. What an offer gives is worth its value and less than one unit
/// more, and what it gets is worth no more than its value and less than one unit less. Of each asset,
/// balances and offers fall by what the ledger's rounding rises by.
pub fn trade(alloc: Global, ledger: Ledger, header: &Header) -> Result<Ledger, NoMemory>
    requires below_last { ledger.height < most_height }
    requires clears { Clears ledger header.now }
    ensures after { IfOk result (λ after. after ≡ traded ledger header.now.prices (value_of header.now.trades) header.now.rounding) }
    ensures within_limits { TradesWithinLimits ledger header.now }
    ensures in_full { TradesInFull ledger header.now }
    ensures gives { GivesItsValue ledger header.now }
    ensures gets { GetsItsValue ledger header.now }
    ensures conserves { IfOk result (λ after. (asset : ℕ) → asset < assets_of ledger → circulating ledger asset ≡ circulating after asset + slice_index header.now.rounding asset) }
    ensures keeps_rounding { IfOk result (λ after. (asset : ℕ) → asset < assets_of ledger → slice_index after.rounding asset ≡ slice_index ledger.rounding asset + slice_index header.now.rounding asset) }
{
    let offers = ledger.parts().offers.items();
    let fills = fills_of(alloc, offers, &header.prices, &header.trades)?;
    execute(
        alloc,
        ledger,
        &header.prices,
        &header.rounding,
        fills.items(),
    )
}
