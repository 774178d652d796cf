//! Bounds of several kinds, for any number of assets.

ghost use Rattle.std.specs.Prelude.{ℕ, ◌≡◌, ◌*◌, ◌<◌, ◌≤◌, EachIndex, IfSome, IsTrue, length, slice_index};
ghost use Rattle.sx_dual.specs.Tables.{IsTable, entry_at};

use rand_core::Rng;
use rand_xoshiro::Xoshiro256PlusPlus;
use std::alloc::Global;
use sx_dual::Bounds;

/// Which bounds the pairs have.
#[derive(Clone, Copy)]
pub enum Kind {
    /// No pair may trade.
    Nothing,
    /// Each pair must trade all that it may, as much both ways.
    Fixed,
    /// The same, but asset 0 is to trade 1 more for asset 1 than the other way round.
    Uneven,
    /// Each pair may trade the most that there is.
    Greatest,
    /// Each pair of one half of the assets must trade 2 for each of the other half, which may only trade
    /// 1 back; within the halves the most may trade.
    Halves,
    /// Each asset may trade 10 for the next one, and the last for the first.
    Ring,
    /// The same, and asset 1 may trade 10 for asset 0.
    Chord,
    /// Assets 0 to 4 may trade 3 in a ring, and the others must trade 1 to 1000 in another one.
    Rings,
    /// Drawn from a generator, below 100.
    Near,
    /// Drawn from a generator, of all orders of magnitude below 2^102.
    Far,
}

// The least and the most that a pair may trade.
#[derive(Clone, Copy)]
struct Span {
    low: u128,
    high: u128,
}

const MOST: u128 = 1 << 102;

fn up_to(high: u128) -> Span {
    Span { low: 0, high }
}

fn exactly(value: u128) -> Span {
    Span {
        low: value,
        high: value,
    }
}

// Whether the pair is a step of the ring of the assets from the first to the last.
fn is_step(first: u32, last: u32, sell: u32, buy: u32) -> bool {
    if sell == last {
        buy == first
    } else {
        first <= sell && sell < last && buy == sell + 1
    }
}

fn fixed(sell: u32, buy: u32) -> Span {
    exactly(u128::from(sell) + u128::from(buy) + 1)
}

fn halves(half: u32, sell: u32, buy: u32) -> Span {
    match (sell < half, buy < half) {
        (false, true) => exactly(2),
        (true, false) => up_to(1),
        _ => up_to(MOST),
    }
}

fn ring(first: u32, last: u32, sell: u32, buy: u32, span: Span) -> Span {
    if is_step(first, last, sell, buy) {
        span
    } else {
        up_to(0)
    }
}

fn rings(last: u32, sell: u32, buy: u32) -> Span {
    if sell < 5 {
        ring(0, 4, sell, buy, up_to(3))
    } else {
        ring(5, last, sell, buy, Span { low: 1, high: 1000 })
    }
}

// A sixth of the number of pairs, so that few pairs must trade.
fn few_of(last: u32) -> u64
    ensures { 1 ≤ result }
{
    u64::from(last) * u64::from(last) / 6 + 1
}

// Two of three pairs trade nothing, and one of so many others must trade a quarter of what it may.
fn drawn(word: u64, others: u64, high: u128) -> Span
    requires { 1 ≤ others }
{
    if word % 3 > 0 {
        up_to(0)
    } else if word / 3 % others > 0 {
        up_to(high)
    } else {
        Span {
            low: high / 4,
            high,
        }
    }
}

fn near(generator: &mut Xoshiro256PlusPlus, others: u64) -> Span
    requires { 1 ≤ others }
{
    let word = generator.next_u64();
    drawn(word, others, u128::from(word >> 32) % 100)
}

fn far(generator: &mut Xoshiro256PlusPlus, others: u64) -> Span
    requires { 1 ≤ others }
{
    let word = generator.next_u64();
    drawn(word, others, MOST >> ((word >> 32) % 102))
}

fn span_of(generator: &mut Xoshiro256PlusPlus, kind: Kind, last: u32, sell: u32, buy: u32) -> Span {
    match kind {
        Kind::Nothing => up_to(0),
        Kind::Fixed => fixed(sell, buy),
        Kind::Uneven if sell == 0 && buy == 1 => exactly(3),
        Kind::Uneven => fixed(sell, buy),
        Kind::Greatest => up_to(MOST),
        Kind::Halves => halves(last / 2 + 1, sell, buy),
        Kind::Chord if sell == 1 && buy == 0 => up_to(10),
        Kind::Ring | Kind::Chord => ring(0, last, sell, buy, up_to(10)),
        Kind::Rings => rings(last, sell, buy),
        Kind::Near => near(generator, few_of(last)),
        Kind::Far => far(generator, few_of(last)),
    }
}

fn has_zero_diagonal(assets: u32, entries: &[u128]) -> bool
    requires few { assets ≤ 32 }
    requires full { length entries.now ≡ assets * assets }
    ensures { IsTrue result → (asset : ℕ) → asset < assets → entry_at assets entries.now asset asset ≡ 0 }
{
    for asset in 0..assets {
        if entries[(asset * assets + asset) as usize] != 0 {
            return false;
        }
    }
    true
}

/// Whether these are entries of this many assets.
pub fn is_table(assets: u32, entries: &[u128]) -> bool
    requires { assets ≤ 32 }
    ensures { IsTrue result → IsTable assets entries.now }
{
    entries.len() == (assets * assets) as usize
        && entries.iter().all(|entry| *entry <= 1 << 102)
        && has_zero_diagonal(assets, entries)
}

/// Whether each lower bound is at most the upper one at its place.
pub fn is_ordered(low: &[u128], high: &[u128]) -> bool
    requires { length low.now ≡ length high.now }
    ensures { IsTrue result → EachIndex low.now (λ k. slice_index low.now k ≤ slice_index high.now k) }
{
    low.iter().zip(high).all(|(l, h)| l <= h)
}

// The bounds of these entries, where they are bounds.
fn bounds_with(assets: u32, low: Vec<u128>, high: Vec<u128>) -> Option<Bounds>
    requires some { 1 ≤ assets }
    requires few { assets ≤ 32 }
{
    if is_table(assets, &low) && is_table(assets, &high) && is_ordered(&low, &high) {
        Some(Bounds::of(assets, low, high))
    } else {
        None
    }
}

/// The bounds of a kind for this many assets, from 1 to 32.
pub fn bounds_of(
    alloc: Global,
    generator: &mut Xoshiro256PlusPlus,
    kind: Kind,
    assets: u32,
) -> Option<Bounds>
    requires some { 1 ≤ assets }
    requires few { assets ≤ 32 }
{
    let mut low = Vec::new(alloc);
    let mut high = Vec::new(alloc);
    for place in 0..assets * assets {
        let (sell, buy) = (place / assets, place % assets);
        let span = if sell == buy {
            up_to(0)
        } else {
            span_of(generator, kind, assets - 1, sell, buy)
        };
        low.push(span.low).ok()?;
        high.push(span.high).ok()?;
    }
    bounds_with(assets, low, high)
}
