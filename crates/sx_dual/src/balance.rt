//! What a flow sells and buys of each asset, and in all.

ghost use Rattle.std.specs.Prelude.{◌≡◌, ℕ, ◌*◌, ◌<◌, ◌≤◌, ◌^◌, IfNone, IfSome};
ghost use Rattle.sx_dual.specs.Circulation.{IsBalanced, bought, sold, traded_value};
ghost use Rattle.sx_dual.specs.Misfit.{IsFirstAsset};
ghost use Rattle.sx_dual.specs.Tables.{value_of};

use crate::entries::asset_of;
use crate::flow::Flow;
use sx_base::AssetId;

// The value that is sold of an asset. The most is 31 * 2^102, since nothing is sold for itself.
pub(crate) fn value_sold(flow: &Flow, asset: AssetId) -> u128
    requires { asset < flow.now.assets }
    ensures value { result ≡ sold flow.now.assets (value_of flow.now) asset }
    ensures in_range { result ≤ 31 * 2 ^ 102 }
{
    let mut value = 0;
    for buy in 0..flow.assets() {
        value += flow.at(asset, asset_of(buy));
    }
    value
}

// The value that is bought of an asset, in the same range.
pub(crate) fn value_bought(flow: &Flow, asset: AssetId) -> u128
    requires { asset < flow.now.assets }
    ensures value { result ≡ bought flow.now.assets (value_of flow.now) asset }
    ensures in_range { result ≤ 31 * 2 ^ 102 }
{
    let mut value = 0;
    for sell in 0..flow.assets() {
        value += flow.at(asset_of(sell), asset);
    }
    value
}

// The first asset of which as much is not bought as sold.
pub(crate) fn first_unbalanced(flow: &Flow) -> Option<AssetId>
    ensures none { IfNone result ((asset : ℕ) → asset < flow.now.assets → IsBalanced flow.now.assets (value_of flow.now) asset) }
    ensures first { IfSome result (IsFirstAsset flow.now.assets (IsBalanced flow.now.assets (value_of flow.now))) }
{
    for number in 0..flow.assets() {
        let asset = asset_of(number);
        if value_sold(flow, asset) != value_bought(flow, asset) {
            return Some(asset);
        }
    }
    None
}

impl Flow {
    /// The value that all pairs trade, in units of `2^-24`: the sum of all entries, below `2^112`.
    pub fn value(&self) -> u128
        ensures value { result ≡ traded_value self.now.assets (value_of self.now) }
        ensures in_range { result ≤ 992 * 2 ^ 102 }
    {
        let mut value = 0;
        for sell in 0..self.assets() {
            value += value_sold(self, asset_of(sell));
        }
        value
    }
}
