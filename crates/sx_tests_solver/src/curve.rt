//! Curves of a few quotes, worked out by hand.

ghost use Rattle.std.specs.Prelude.{◌≤◌, ◌^◌, All};
ghost use Rattle.std.specs.Bool.{OnTrue};
ghost use Rattle.sx_curve.specs.Curves.{IsAmong};

use crate::markets::{ONE, quote};
use std::alloc::Global;
use std::test::Fail;
use sx_base::AssetId;
use sx_curve::*;

// Eight amounts of at most this have 2^62 in all.
const MOST: u64 = 1 << 59;

// Whether a quote is of two of three assets and has a small amount.
fn is_small(quote: &Quote) -> bool
    ensures { OnTrue result (IsAmong 3 quote.now × (quote.now.amount ≤ 2 ^ 59)) }
{
    quote.sell.get() < 3
        && quote.buy.get() < 3
        && quote.sell.get() != quote.buy.get()
        && quote.amount.get() <= MOST
}

fn are_small(quotes: &[Quote]) -> bool
    ensures { OnTrue result (All (λ quote. IsAmong 3 quote × (quote.amount ≤ 2 ^ 59)) quotes.now) }
{
    for quote in quotes {
        let small = is_small(quote);
        if !small {
            return false;
        }
    }
    true
}

// The curves of at most eight quotes among three assets, if all are small.
fn curves_of(alloc: Global, quotes: &[Quote]) -> Option<Curves> {
    let small = are_small(quotes);
    if quotes.len() > 8 || !small {
        return None;
    }
    let Ok(quotes) = quotes.to_vec(alloc) else {
        return None;
    };
    Curves::build(alloc, 3, quotes).ok()
}

fn curves(alloc: Global) -> Option<Curves> {
    let quotes = [
        quote(0, 1, 2 * ONE, 20)?,
        quote(1, 0, ONE, 7)?,
        quote(0, 1, ONE, 30)?,
        quote(0, 2, ONE, 5)?,
        quote(0, 1, 4 * ONE, 40)?,
        quote(0, 1, 2 * ONE, 2)?,
    ];
    curves_of(alloc, &quotes)
}

// The amount, and the weighted amount over 2^24, of a pair up to a quotient.
fn sums(curves: &Curves, sell: u8, buy: u8, num: u128, den: u128) -> Option<(u128, u128)> {
    if den > 1 << 60 {
        return None;
    }
    let (sell, buy) = (AssetId::new(sell).ok()?, AssetId::new(buy).ok()?);
    let sums = curves.below(sell, buy, num, den);
    Some((u128::from(sums.amount), sums.weighted >> 24))
}

// The number of the first row that comes out otherwise.
fn first_wrong(curves: &Curves) -> Option<u8> {
    let one = u128::from(ONE);
    // the pair, the highest limit as a quotient; the amount, and the weighted amount over 2^24
    for (row, sell, buy, num, den, amount, weight) in [
        (1, 0, 1, one - 1, 1, 0, 0),
        (2, 0, 1, one, 1, 30, 30),
        (3, 0, 1, 2 * one - 1, 1, 30, 30),
        (4, 0, 1, 2 * one, 1, 52, 74),
        (5, 0, 1, 3 * one, 2, 30, 30),
        (6, 0, 1, 4 * one, 2, 52, 74),
        (7, 0, 1, 1 << 84, 1 << 59, 52, 74),
        (8, 0, 1, 1 << 84, 1, 92, 234),
        (9, 0, 2, one, 1, 5, 5),
        (10, 1, 0, one, 1, 7, 7),
        (11, 1, 2, 1 << 84, 1, 0, 0),
        (12, 31, 31, 1 << 84, 1, 0, 0),
    ] {
        if sums(curves, sell, buy, num, den) != Some((amount, weight)) {
            return Some(row);
        }
    }
    None
}

#[test]
fn sums_go_up_to_a_limit(rt: HostRuntime) -> Result<(), Fail> {
    let curves = curves(rt.alloc()).ok_or("curves")?;
    assert!(rt; curves.assets() == 3);
    assert_eq!(rt; first_wrong(&curves), None);
    value_laws();
    search_laws();
    Ok(())
}
