//! Places in a list with an entry for each two assets.

ghost use Rattle.std.specs.Prelude.{◌≡◌, ◌<◌, ◌≤◌, ◌^◌};
ghost use Rattle.sx_dual.specs.Tables.{IsTable, entry_at};

use sx_base::AssetId;

// The asset of this number.
pub(crate) fn asset_of(number: u32) -> AssetId
    requires { number < 32 }
    ensures { result ≡ number }
{
    AssetId::new(number as u8).unwrap()
}

// The entry of the pair, where there are this many assets.
pub(crate) fn entry(entries: &[u128], assets: u32, sell: AssetId, buy: AssetId) -> u128
    requires table { IsTable assets entries.now }
    requires few { assets ≤ 32 }
    requires sell { sell < assets }
    requires buy { buy < assets }
    ensures value { result ≡ entry_at assets entries.now sell buy }
    ensures in_range { result ≤ 2 ^ 102 }
    ensures itself { sell ≡ buy → result ≡ 0 }
{
    entries[usize::from(sell.get()) * assets as usize + usize::from(buy.get())]
}
