//! Quotes drawn from a generator.

ghost use Rattle.std.specs.Prelude.{◌≢◌, ◌<◌, ◌≤◌, All, IfOk};
ghost use Rattle.sx_bench.specs.Quotes.{IsSmall};

use crate::drawing::{draw, draw_amount, generator};
use anyhow::Result;
use rand_xoshiro::Xoshiro256PlusPlus;
use std::alloc::Global;
use sx_base::AssetId;
use sx_curve::Quote;
use sx_price::Limit;

// The limit 1.
const ONE: u64 = 1 << 24;

// Two different assets.
fn draw_pair(generator: &mut Xoshiro256PlusPlus, assets: u64) -> (u64, u64)
    requires some { 2 ≤ assets }
    requires few { assets ≤ 32 }
    ensures sell { result.0 < assets }
    ensures buy { result.1 < assets }
    ensures different { result.0 ≢ result.1 }
{
    let sell = draw(generator, 0, assets);
    let other = draw(generator, 0, assets - 1);
    if other < sell {
        (sell, other)
    } else {
        (sell, other + 1)
    }
}

// Asset k is worth k + 1. The limit is from half to one and a half times the rate at which the two
// assets are worth the same, in sixteenths, so that demand changes by leaps and a search goes on.
fn draw_quote(generator: &mut Xoshiro256PlusPlus, assets: u32) -> Result<Quote>
    requires some { 2 ≤ assets }
    requires few { assets ≤ 32 }
    ensures small { IfOk result (IsSmall assets) }
{
    let (sell, buy) = draw_pair(generator, u64::from(assets));
    let rate = (sell + 1) * ONE / (buy + 1);
    let sixteenths = draw(generator, 8, 17);
    Ok(Quote {
        sell: AssetId::new(sell as u8)?,
        buy: AssetId::new(buy as u8)?,
        limit: Limit::new(rate.saturating_mul(sixteenths) / 16)?,
        amount: draw_amount(generator)?,
    })
}

/// This many quotes of pairs of this many assets.
pub fn draw_quotes(alloc: Global, size: u32, assets: u32) -> Result<Vec<Quote>>
    requires some { 2 ≤ assets }
    requires few { assets ≤ 32 }
    ensures { IfOk result (λ quotes. All (IsSmall assets) quotes.items) }
{
    let mut generator = generator();
    let mut quotes = Vec::new(alloc);
    for _ in 0..size {
        let next = draw_quote(&mut generator, assets)?;
        quotes.push(next)?;
    }
    Ok(quotes)
}
