//! Whether a set of assets shows that there is no circulation.
//!
//! In a circulation as much value goes into any set of assets as goes out of it, since each asset
//! balances. A pair goes into the set where its sold asset is outside and its bought asset inside.
//! So where the lower bounds of the pairs into a set add up to more than the upper bounds of the
//! pairs out of it, there is no circulation. In this drawing an arrow leads from the sold asset to
//! the bought one: 16 must go into the set of A and B, and 15 may go out of it.
//!
//! ```text
//!     the set
//!    +-------+  16 to 20
//!    |   A <-|----------- C
//!    |     --|----------> C
//!    |       |  0 to 9
//!    |   B --|----------> D
//!    +-------+  0 to 6
//! ```
//!
//! Cost: one pass over the n² pairs of n assets. The sums are below 2^112, so none wraps.
//!
//! Source: A. J. Hoffman, "Some recent applications of the theory of linear inequalities to extremal
//! combinatorial analysis" (1960), the easy half of his theorem on circulations; Ahuja, Magnanti and
//! Orlin, "Network Flows" (1993), chapter 6.

ghost use Rattle.std.specs.Prelude.{◌≡◌, ℕ, ◌*◌, ◌<◌, ◌≤◌, ◌^◌, ◌↔◌, IsTrue, if◌then◌else◌};
ghost use Rattle.sx_dual.specs.Circulation.{HaveNoCirculation};
ghost use Rattle.sx_dual.specs.Cuts.{IsCut, goes_in, goes_out, sum_in, sum_out};
ghost use Rattle.sx_dual.specs.Sums.{between, sum_below};
ghost use Rattle.sx_dual.specs.Tables.{high_of, low_of};

use crate::bounds::Bounds;
use crate::cut::Cut;
use crate::entries::asset_of;
use sx_base::AssetId;

// What must go into a set of assets, and what may go out of it, in units of 2^-24.
#[derive(Clone, Copy)]
struct Crossing {
    into: u128,
    out: u128,
}

fn crossing_at(bounds: &Bounds, cut: Cut, sell: AssetId, buy: AssetId) -> Crossing
    requires sell { sell < bounds.now.assets }
    requires buy { buy < bounds.now.assets }
    ensures into { result.into ≡ between (λ s b. if goes_in cut.0 s b then low_of bounds.now s b else 0) sell buy }
    ensures out { result.out ≡ between (λ s b. if goes_out cut.0 s b then high_of bounds.now s b else 0) sell buy }
    ensures into_range { result.into ≤ 2 ^ 102 }
    ensures out_range { result.out ≤ 2 ^ 102 }
{
    let into = if cut.goes_in(sell, buy) {
        bounds.low(sell, buy)
    } else {
        0
    };
    let out = if cut.goes_out(sell, buy) {
        bounds.high(sell, buy)
    } else {
        0
    };
    Crossing { into, out }
}

// The sums over the pairs that sell this asset.
fn crossing_from(bounds: &Bounds, cut: Cut, sell: AssetId) -> Crossing
    requires { sell < bounds.now.assets }
    ensures into { result.into ≡ sum_below bounds.now.assets (λ buy. between (λ s b. if goes_in cut.0 s b then low_of bounds.now s b else 0) sell buy) }
    ensures out { result.out ≡ sum_below bounds.now.assets (λ buy. between (λ s b. if goes_out cut.0 s b then high_of bounds.now s b else 0) sell buy) }
    ensures into_range { result.into ≤ 32 * 2 ^ 102 }
    ensures out_range { result.out ≤ 32 * 2 ^ 102 }
{
    let mut into = 0;
    let mut out = 0;
    for buy in 0..bounds.assets() {
        let pair = crossing_at(bounds, cut, sell, asset_of(buy));
        into += pair.into;
        out += pair.out;
    }
    Crossing { into, out }
}

// The sums over all pairs.
fn crossing_of(bounds: &Bounds, cut: Cut) -> Crossing
    ensures into { result.into ≡ sum_in bounds.now.assets (low_of bounds.now) cut.0 }
    ensures out { result.out ≡ sum_out bounds.now.assets (high_of bounds.now) cut.0 }
{
    let mut into = 0;
    let mut out = 0;
    for sell in 0..bounds.assets() {
        let row = crossing_from(bounds, cut, asset_of(sell));
        into += row.into;
        out += row.out;
    }
    Crossing { into, out }
}

/// True exactly if more must go into the set than may go out of it: the lower bounds of the pairs
/// into it add up to more than the upper bounds of the pairs out of it. There is then no circulation
/// within the bounds. Bits of assets that are not there do not count. It takes no memory.
pub fn cuts(bounds: &Bounds, cut: Cut) -> bool
    ensures exact { IsTrue result ↔ IsCut bounds.now.assets (low_of bounds.now) (high_of bounds.now) cut.0 }
    ensures none { IsTrue result → HaveNoCirculation bounds.now.assets (low_of bounds.now) (high_of bounds.now) }
{
    let crossing = crossing_of(bounds, cut);
    crossing.out < crossing.into
}
