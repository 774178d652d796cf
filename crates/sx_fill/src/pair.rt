//! The fills of the offers of one pair.

ghost use Rattle.std.specs.Prelude.{◌≡◌, ◌+◌, ◌*◌, ◌^◌, ◌<◌, ◌≤◌, ◌++◌, length, take, IfOk, IsTrue, None, OnErr, OnOk};
ghost use Rattle.sx_base.specs.Ranges.{most_amount};
ghost use Rattle.sx_bytes.specs.Grammar.{in_order};
ghost use Rattle.sx_fill.specs.PairFills.{pair_fill, trading};
ghost use Rattle.sx_ledger.specs.Ledger.{keys};
ghost use Rattle.sx_ledger.specs.Order.{key_before};
ghost use Rattle.sx_price.specs.Rounding.{rounded_down, rounded_up};

use std::alloc::Global;
use sx_bytes::NoMemory;
use sx_ledger::{Fill, Fills, Offer};
use sx_price::{Price, units_down, units_up};

// The units that an offer gives for a value, where `whole` is what it is worth: its amount, unless it trades only a
// part. So next to nothing is divided, which takes long for numbers of 128 bits.
fn given_for(traded: u128, whole: u128, offer: &Offer, sell: Price) -> u64
    requires whole { whole ≡ sell * offer.now.amount }
    requires worth_an_amount { traded ≤ sell * most_amount }
    ensures { result ≡ rounded_up traded sell }
{
    if traded == whole {
        offer.amount.get()
    } else {
        units_up(traded, sell)
    }
}

// The units that are got for a value. A value below 2^64 is divided as a number of 64 bits.
fn got_for(traded: u128, buy: Price) -> u64
    requires { traded ≤ buy * most_amount }
    ensures { result ≡ rounded_down traded buy }
{
    match u64::try_from(traded) {
        Ok(short) => short / buy.get(),
        Err(_) => units_down(traded, buy),
    }
}

/// Appends the fills of the offers of one pair, which stand in book order, if the sold asset has the
/// price `sell`, the bought asset the price `buy`, and the pair trades the value `y`, in units of
/// `2^-24`. There is one fill for each offer that trades a value above 0, by strictly rising place,
/// and `first` is the place of the first offer. `NoMemory` comes where the list cannot grow, and what
/// stood in it then still stands before all else.
pub fn push_fills(
    fills: &mut Vec<Fill>,
    first: u32,
    offers: &[Offer],
    sell: Price,
    buy: Price,
    y: u128,
) -> Result<(), NoMemory>
    requires few { first + length offers.now < 2 ^ 32 }
    requires in_book_order { IsTrue (in_order key_before None (keys offers.now)) }
    requires worth_an_amount { y ≤ buy * most_amount }
    ensures appended { OnOk result (fills.new.items ≡ fills.old.items ++ trading (pair_fill sell buy y offers.now) first offers.now) }
    ensures kept { OnErr result (take (length fills.old.items) fills.new.items ≡ fills.old.items) }
{
    let price = u128::from(sell.get());
    let mut left = y;
    for (place, offer) in offers.iter().enumerate() {
        if left == 0 {
            return Ok(());
        }
        let whole = price * u128::from(offer.amount.get());
        let traded = left.min(whole);
        fills.push(Fill {
            place: first + place as u32,
            value: traded,
            gives: given_for(traded, whole, offer, sell),
            gets: got_for(traded, buy),
        })?;
        left -= traded;
    }
    Ok(())
}

/// The fills of the offers of one pair, which stand in book order, if the sold asset has the price
/// `sell`, the bought asset the price `buy`, and the pair trades the value `y`, in units of `2^-24`:
/// one for each offer that trades a value above 0, by strictly rising place, from place 0.
pub fn fill_pair(
    alloc: Global,
    offers: &[Offer],
    sell: Price,
    buy: Price,
    y: u128,
) -> Result<Fills, NoMemory>
    requires few { length offers.now < 2 ^ 32 }
    requires in_book_order { IsTrue (in_order key_before None (keys offers.now)) }
    requires worth_an_amount { y ≤ buy * most_amount }
    ensures { IfOk result (λ fills. fills ≡ trading (pair_fill sell buy y offers.now) 0 offers.now) }
{
    let mut fills = Vec::new(alloc);
    push_fills(&mut fills, 0, offers, sell, buy, y)?;
    Ok(Fills::of(fills))
}
