//! Bounds of trade that are read as text.

ghost use Rattle.std.specs.Prelude.{◌≡◌, ◌*◌, ◌/◌, ◌%◌, ◌<◌, ◌≤◌, ◌^◌, IfOk};

use anyhow::{Context, Result, ensure};
use std::alloc::Global;
use sx_dual::Bounds;

// The most that a pair may trade.
const MOST: u128 = 1 << 102;

// The least and the greatest value that a pair may trade.
#[derive(Clone, Copy)]
struct Span {
    low: u128,
    high: u128,
}

// The numbers of a text.
fn numbers_of(alloc: Global, text: &str) -> Result<Vec<u128>> {
    let mut numbers = Vec::new(alloc);
    for word in text.split_whitespace() {
        let number = word.parse::<u128>().context("a number")?;
        numbers.push(number)?;
    }
    Ok(numbers)
}

// The number at a place.
fn number_at(numbers: &[u128], place: usize) -> Result<u128> {
    Ok(*numbers.get(place).context("two numbers for each pair")?)
}

// The bounds of the pair at a place. Its numbers stand after that of the assets and those of earlier pairs.
fn span_at(numbers: &[u128], assets: u32, place: u32) -> Result<Span>
    requires some { 1 ≤ assets }
    requires few { assets ≤ 32 }
    requires place { place < assets * assets }
    ensures ordered { IfOk result (λ span. span.low ≤ span.high) }
    ensures in_range { IfOk result (λ span. span.high ≤ 2 ^ 102) }
    ensures itself { IfOk result (λ span. place / assets ≡ place % assets → span.high ≡ 0) }
{
    let low = number_at(numbers, 2 * place as usize + 1)?;
    let high = number_at(numbers, 2 * place as usize + 2)?;
    ensure!(low <= high, "a lower bound above its upper one");
    ensure!(high <= MOST, "a bound above 2^102");
    ensure!(
        high == 0 || place / assets != place % assets,
        "an asset is sold for itself"
    );
    Ok(Span { low, high })
}

// The bounds of this many assets.
fn bounds_of(alloc: Global, numbers: &[u128], assets: u32) -> Result<Bounds>
    requires some { 1 ≤ assets }
    requires few { assets ≤ 32 }
{
    let mut low = Vec::new(alloc);
    let mut high = Vec::new(alloc);
    for place in 0..assets * assets {
        let span = span_at(numbers, assets, place)?;
        low.push(span.low)?;
        high.push(span.high)?;
    }
    Ok(Bounds::of(assets, low, high))
}

/// The bounds of a text: the number of assets, and then the lower and the upper bound of each two assets,
/// by the asset sold.
pub fn read_bounds(alloc: Global, text: &str) -> Result<Bounds> {
    let numbers = numbers_of(alloc, text)?;
    let assets = number_at(&numbers, 0)?;
    ensure!(1 <= assets && assets <= 32, "from 1 to 32 assets");
    bounds_of(alloc, &numbers, assets as u32)
}
