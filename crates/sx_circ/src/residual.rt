//! How much more or less a pair can trade.

ghost use Rattle.std.specs.Prelude.{◌≡◌, ◌+◌, ◌<◌, ◌≤◌, ◌*◌, ◌^◌, length};
ghost use Rattle.sx_circ.specs.Residual.{KeepsBounds};
ghost use Rattle.sx_dual.specs.Tables.{entry_at, high_of, low_of, IsAssetCount};

use sx_base::AssetId;
use sx_dual::Bounds;

// The asset of this number.
pub fn asset_of(number: u32) -> AssetId
    requires { number < 32 }
    ensures { result ≡ number }
{
    AssetId::new(number as u8).unwrap()
}

// The value that a pair trades.
fn value_at(values: &[u128], assets: u32, sell: u32, buy: u32) -> u128
    requires full { length values.now ≡ assets * assets }
    requires few { assets ≤ 32 }
    requires sell { sell < assets }
    requires buy { buy < assets }
    ensures { result ≡ entry_at assets values.now sell buy }
{
    values[sell as usize * assets as usize + buy as usize]
}

// How much more a pair can trade.
pub fn room_above(bounds: &Bounds, values: &[u128], sell: u32, buy: u32) -> u128
    requires keeps { KeepsBounds bounds.now values.now }
    requires sell { sell < bounds.now.assets }
    requires buy { buy < bounds.now.assets }
    ensures { entry_at bounds.now.assets values.now sell buy + result ≡ high_of bounds.now sell buy }
{
    let value = value_at(values, bounds.assets(), sell, buy);
    bounds.high(asset_of(sell), asset_of(buy)) - value
}

// How much less a pair can trade.
pub fn room_below(bounds: &Bounds, values: &[u128], sell: u32, buy: u32) -> u128
    requires keeps { KeepsBounds bounds.now values.now }
    requires sell { sell < bounds.now.assets }
    requires buy { buy < bounds.now.assets }
    ensures { low_of bounds.now sell buy + result ≡ entry_at bounds.now.assets values.now sell buy }
{
    let value = value_at(values, bounds.assets(), sell, buy);
    value - bounds.low(asset_of(sell), asset_of(buy))
}
