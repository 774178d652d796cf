//! Markets that are worked out by hand: one of two quotes, and one of so many that threads share its pairs.

ghost use Rattle.std.specs.Prelude.{◌≡◌, ◌≤◌, ◌^◌, IfOk, IfSome, length};
ghost use Rattle.sx_curve.specs.Curves.{IsAmong};

use crate::markets::{ONE, quote};
use std::alloc::Global;
use std::thread::Threads;
use sx_bytes::NoMemory;
use sx_curve::{Curves, Quote};
use sx_demand::excess;
use sx_price::{Mu, Price, Prices};
use sx_search::*;

// 100 of the first asset for the second, and 50 back.
fn halves(alloc: Global) -> Option<Curves>
    ensures { IfSome result (λ curves. curves.assets ≡ 3) }
{
    let quotes = [quote(0, 1, ONE / 2, 100)?, quote(1, 0, ONE / 2, 50)?]
        .to_vec(alloc)
        .ok()?;
    Curves::build(alloc, 3, quotes).ok()
}

fn ones(alloc: Global) -> Option<Prices>
    ensures { IfSome result (λ prices. length prices ≡ 3) }
{
    let one = Price::new(ONE).ok()?;
    Some(Prices::of([one, one, one].to_vec(alloc).ok()?))
}

// Whether the prices are these numbers.
fn are(prices: &Prices, raws: [u64; 3]) -> bool {
    prices.items().iter().map(|price| price.get()).eq(raws)
}

// The net and the whole demand of the first two assets, at prices of 1.
fn demand<R: Threads + Sync>(rt: &R, alloc: Global) -> Option<([i128; 2], [u128; 2])> {
    let curves = halves(alloc)?;
    let start = ones(alloc)?;
    let found = excess(rt, alloc, &curves, &start, Mu::new(10).ok()?).ok()?;
    let net = found.net.items();
    let volume = found.volume.items();
    Some((
        [*net.first()?, *net.get(1)?],
        [*volume.first()?, *volume.get(1)?],
    ))
}

// Whether so many rounds of the search lead to these prices.
fn leads_to<R: Threads + Sync>(rt: &R, alloc: Global, rounds: u32, raws: [u64; 3]) -> Option<bool> {
    let curves = halves(alloc)?;
    let start = ones(alloc)?;
    let prices = search(rt, alloc, &curves, &start, Mu::new(10).ok()?, rounds).ok()?;
    Some(are(&prices, raws))
}

#[test]
fn one_trial(rt: HostRuntime) {
    let alloc = rt.alloc();
    let (sold, all) = (838_860_800, 2_516_582_400);
    assert!(rt; demand(&rt, alloc) == Some(([-838_860_800, sold], [all, all])));
    assert!(rt; leads_to(&rt, alloc, 0, [ONE, ONE, ONE]) == Some(true));
    assert!(rt; leads_to(&rt, alloc, 1, [16_427_691, 17_126_741, ONE]) == Some(true));
}

// One quote, so many times.
fn alike(alloc: Global, quote: Quote, count: usize) -> Result<Curves, NoMemory>
    requires among { IsAmong 32 quote }
    requires one { quote.amount ≡ 1 }
    requires count { count ≤ 2 ^ 20 }
    ensures { IfOk result (λ curves. curves.assets ≡ 32) }
{
    let quotes = vec![in alloc; quote; count]?;
    Curves::build(alloc, 32, quotes)
}

fn many_ones(alloc: Global) -> Option<Prices>
    ensures { IfSome result (λ prices. length prices ≡ 32) }
{
    let one = Price::new(ONE).ok()?;
    Some(Prices::of([one; 32].to_vec(alloc).ok()?))
}

// What is bought and sold of the first two assets, where one quote stands so often that threads share the pairs.
fn shared<R: Threads + Sync>(rt: &R, alloc: Global) -> Option<[i128; 2]> {
    let quote = quote(0, 1, ONE / 2, 1)?;
    let curves = alike(alloc, quote, 1 << 20).ok()?;
    let ones = many_ones(alloc)?;
    let found = excess(rt, alloc, &curves, &ones, Mu::new(10).ok()?).ok()?;
    let net = found.net.items();
    Some([*net.first()?, *net.get(1)?])
}

#[test]
fn threads_share_many_quotes(rt: HostRuntime) {
    assert!(rt; shared(&rt, rt.alloc()) == Some([-17_592_186_044_416, 17_592_186_044_416]));
}
