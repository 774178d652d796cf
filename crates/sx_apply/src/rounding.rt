//! What rounding keeps.

ghost use Rattle.std.specs.Prelude.{◌≡◌, ℕ, List, ◌+◌, ◌^◌, ◌<◌, ◌≤◌, length, slice_index, All, IfOk};
ghost use Rattle.sx_apply.specs.FillSums.{given_by, got_by};
ghost use Rattle.sx_apply.specs.Trading.{AreFills};
ghost use Rattle.sx_fill.specs.AllFills.{all_fills};
ghost use Rattle.sx_ledger.specs.Fills.{Flow, IsRounding};

use std::alloc::Global;
use sx_base::{BalanceVec, Balances};
use sx_bytes::NoMemory;
use sx_ledger::{Fill, Offer};

// Adds what each fill gives and gets to the sums of its two assets.
fn add_fills(given: &mut [u64], got: &mut [u64], offers: &[Offer], fills: &[Fill])
    requires places { All (λ fill. fill.place < length offers.now) fills.now }
    requires sold { All (λ offer. offer.sell < length given.old) offers.now }
    requires bought { All (λ offer. offer.buy < length got.old) offers.now }
    requires given_fits { (asset : ℕ) → asset < length given.old → slice_index given.old asset + given_by offers.now fills.now asset < 2 ^ 64 }
    requires got_fits { (asset : ℕ) → asset < length got.old → slice_index got.old asset + got_by offers.now fills.now asset < 2 ^ 64 }
    ensures given { (asset : ℕ) → asset < length given.old → slice_index given.new asset ≡ slice_index given.old asset + given_by offers.now fills.now asset }
    ensures got { (asset : ℕ) → asset < length got.old → slice_index got.new asset ≡ slice_index got.old asset + got_by offers.now fills.now asset }
{
    for fill in fills {
        let offer = &offers[fill.place as usize];
        given[usize::from(offer.sell.get())] += fill.gives;
        got[usize::from(offer.buy.get())] += fill.gets;
    }
}

// Takes other numbers away, one by one.
fn subtract_each(numbers: &mut [u64], others: &[u64])
    requires as_many { length others.now ≡ length numbers.old }
    requires never_negative { (k : ℕ) → k < length numbers.old → slice_index others.now k ≤ slice_index numbers.old k }
    ensures { (k : ℕ) → k < length numbers.old → slice_index numbers.old k ≡ slice_index others.now k + slice_index numbers.new k }
{
    for place in 0..numbers.len() {
        numbers[place] -= others[place];
    }
}

/// What a block keeps of each of `assets` assets by rounding, in whole units: what the fills of its
/// offers give of it less what they get of it. The fills are all those of offers of a ledger, at some
/// prices and for a flow that can trade, so that no more is got of an asset than is given. It goes over
/// the fills once.
pub fn rounding_of(
    alloc: Global,
    offers: &[Offer],
    fills: &[Fill],
    assets: u32,
) -> Result<Balances, NoMemory>
    requires fills { AreFills assets offers.now fills.now }
    ensures one_each { IfOk result (λ rounding. length rounding ≡ assets) }
    ensures kept { IfOk result (λ rounding. (prices : List ℕ) (flow : Flow) (asset : ℕ) → fills.now ≡ all_fills prices flow offers.now → asset < assets → IsRounding prices flow offers.now asset (slice_index rounding asset)) }
{
    let mut kept = vec![in alloc; 0; assets as usize]?;
    let mut got = vec![in alloc; 0; assets as usize]?;
    add_fills(&mut kept, &mut got, offers, fills);
    subtract_each(&mut kept, &got);
    Ok(Balances::of(BalanceVec::from_slice(alloc, &kept)?))
}
