//! Whether a flow and potentials fit.
//!
//! Each asset has a potential, and a pair has the gain 1 + the potential of its sold asset - the
//! potential of its bought asset. Along a circulation the potentials cancel, so its traded value is
//! the sum of value times gain over all pairs. Where each pair with a gain above 0 trades all that it
//! may, and each with a gain below 0 only what it must, no pair can add to that sum, and no
//! circulation within the bounds trades more value. In this drawing an arrow leads from the sold
//! asset to the bought one, and nothing must trade.
//!
//! ```text
//!          10 of 10, gain 2
//!       A ------------------> B        potentials: A 1, B 0, C 0
//!       ^ <------------------ |
//!       |   0 of 10, gain 0   |        traded value 30
//!       |                     |
//!       +-------- C <---------+
//!    10 of 10,         10 of 10,
//!    gain 0            gain 1
//! ```
//!
//! Cost: for n assets at most one pass over the n² pairs for the bounds, two for what is sold and
//! bought, and one for the gains.
//!
//! Source: duality of linear programming, in the form of complementary slackness: Ahuja, Magnanti
//! and Orlin, "Network Flows" (1993), chapter 9.

ghost use Rattle.std.specs.Prelude.{◌≡◌, ◌<◌, ◌↔◌, length, IsTrue, IsOk, IfErr, OnOk, IfNone, IfSome};
ghost use Rattle.sx_dual.specs.Circulation.{IsGreatest};
ghost use Rattle.sx_dual.specs.Fit.{Fits, gain_of};
ghost use Rattle.sx_dual.specs.Misfit.{IsFirstPair, IsMisfit};
ghost use Rattle.sx_dual.specs.Search.{EachFrom, IsFirstFrom, PairTight, PairWithin};
ghost use Rattle.sx_dual.specs.Sums.{EachPair};
ghost use Rattle.sx_dual.specs.Tables.{high_of, low_of, potential_of, value_of};

use crate::balance::{first_unbalanced, value_bought, value_sold};
use crate::bounds::Bounds;
use crate::entries::asset_of;
use crate::flow::Flow;
use crate::misfit::Misfit;
use crate::potentials::Potentials;
use sx_base::AssetId;

fn is_within(bounds: &Bounds, flow: &Flow, sell: AssetId, buy: AssetId) -> bool
    requires flow { flow.now.assets ≡ bounds.now.assets }
    requires sell { sell < bounds.now.assets }
    requires buy { buy < bounds.now.assets }
    ensures { IsTrue result ↔ PairWithin bounds.now flow.now sell buy }
{
    let y = flow.at(sell, buy);
    bounds.low(sell, buy) <= y && y <= bounds.high(sell, buy)
}

// The first asset for which this one trades a value out of bounds.
fn outside_from(bounds: &Bounds, flow: &Flow, sell: AssetId) -> Option<AssetId>
    requires flow { flow.now.assets ≡ bounds.now.assets }
    requires sell { sell < bounds.now.assets }
    ensures none { IfNone result (EachFrom bounds.now.assets (PairWithin bounds.now flow.now) sell) }
    ensures first { IfSome result (IsFirstFrom bounds.now.assets (PairWithin bounds.now flow.now) sell) }
{
    for number in 0..bounds.assets() {
        let buy = asset_of(number);
        if sell != buy && !is_within(bounds, flow, sell, buy) {
            return Some(buy);
        }
    }
    None
}

// The first pair that trades a value out of bounds.
fn first_outside(bounds: &Bounds, flow: &Flow) -> Option<(AssetId, AssetId)>
    requires { flow.now.assets ≡ bounds.now.assets }
    ensures none { IfNone result (EachPair bounds.now.assets (PairWithin bounds.now flow.now)) }
    ensures first { IfSome result (λ pair. IsFirstPair bounds.now.assets (PairWithin bounds.now flow.now) pair.0 pair.1) }
{
    for number in 0..bounds.assets() {
        let sell = asset_of(number);
        if let Some(buy) = outside_from(bounds, flow, sell) {
            return Some((sell, buy));
        }
    }
    None
}

// 1 and the potential of the sold asset, less that of the bought one.
fn gain(potentials: &Potentials, sell: AssetId, buy: AssetId) -> i64
    requires sell { sell < length potentials.now }
    requires buy { buy < length potentials.now }
    ensures { result ≡ gain_of (potential_of potentials.now) sell buy }
{
    1 + i64::from(potentials.at(sell)) - i64::from(potentials.at(buy))
}

// Whether the pair keeps the rule on gains.
fn is_tight(
    bounds: &Bounds,
    flow: &Flow,
    potentials: &Potentials,
    sell: AssetId,
    buy: AssetId,
) -> bool
    requires flow { flow.now.assets ≡ bounds.now.assets }
    requires potentials { length potentials.now ≡ bounds.now.assets }
    requires sell { sell < bounds.now.assets }
    requires buy { buy < bounds.now.assets }
    ensures { IsTrue result ↔ PairTight bounds.now flow.now potentials.now sell buy }
{
    let gain = gain(potentials, sell, buy);
    let y = flow.at(sell, buy);
    if gain > 0 {
        y == bounds.high(sell, buy)
    } else if gain < 0 {
        y == bounds.low(sell, buy)
    } else {
        true
    }
}

// The first asset for which this one breaks the rule on gains.
fn slack_from(
    bounds: &Bounds,
    flow: &Flow,
    potentials: &Potentials,
    sell: AssetId,
) -> Option<AssetId>
    requires flow { flow.now.assets ≡ bounds.now.assets }
    requires potentials { length potentials.now ≡ bounds.now.assets }
    requires sell { sell < bounds.now.assets }
    ensures none { IfNone result (EachFrom bounds.now.assets (PairTight bounds.now flow.now potentials.now) sell) }
    ensures first { IfSome result (IsFirstFrom bounds.now.assets (PairTight bounds.now flow.now potentials.now) sell) }
{
    for number in 0..bounds.assets() {
        let buy = asset_of(number);
        if sell != buy && !is_tight(bounds, flow, potentials, sell, buy) {
            return Some(buy);
        }
    }
    None
}

// The first pair that breaks the rule on gains.
fn first_slack(bounds: &Bounds, flow: &Flow, potentials: &Potentials) -> Option<(AssetId, AssetId)>
    requires flow { flow.now.assets ≡ bounds.now.assets }
    requires potentials { length potentials.now ≡ bounds.now.assets }
    ensures none { IfNone result (EachPair bounds.now.assets (PairTight bounds.now flow.now potentials.now)) }
    ensures first { IfSome result (λ pair. IsFirstPair bounds.now.assets (PairTight bounds.now flow.now potentials.now) pair.0 pair.1) }
{
    for number in 0..bounds.assets() {
        let sell = asset_of(number);
        if let Some(buy) = slack_from(bounds, flow, potentials, sell) {
            return Some((sell, buy));
        }
    }
    None
}

/// Ok exactly if the flow is a circulation within the bounds and each pair keeps the rule on gains.
/// No circulation within the same bounds then trades more value, whoever found it. Otherwise the
/// first misfit comes: the first pair out of bounds, else the first asset that does not balance,
/// else the first pair that breaks the rule. It takes no memory.
pub fn fits(bounds: &Bounds, flow: &Flow, potentials: &Potentials) -> Result<(), Misfit>
    requires flow { flow.now.assets ≡ bounds.now.assets }
    requires potentials { length potentials.now ≡ bounds.now.assets }
    ensures exact { IsOk result ↔ Fits bounds.now.assets (low_of bounds.now) (high_of bounds.now) (value_of flow.now) (potential_of potentials.now) }
    ensures misfit { IfErr result (IsMisfit bounds.now.assets (low_of bounds.now) (high_of bounds.now) (value_of flow.now) (potential_of potentials.now)) }
    ensures greatest { OnOk result (IsGreatest bounds.now.assets (low_of bounds.now) (high_of bounds.now) (value_of flow.now)) }
{
    if let Some((sell, buy)) = first_outside(bounds, flow) {
        return Err(Misfit::Outside {
            sell,
            buy,
            low: bounds.low(sell, buy),
            high: bounds.high(sell, buy),
            y: flow.at(sell, buy),
        });
    }
    if let Some(asset) = first_unbalanced(flow) {
        return Err(Misfit::Unbalanced {
            asset,
            out: value_sold(flow, asset),
            into: value_bought(flow, asset),
        });
    }
    if let Some((sell, buy)) = first_slack(bounds, flow, potentials) {
        return Err(Misfit::Slack {
            sell,
            buy,
            gain: gain(potentials, sell, buy),
            y: flow.at(sell, buy),
        });
    }
    Ok(())
}
