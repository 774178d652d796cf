//! The values between which each pair may trade.

ghost use Rattle.std.specs.Prelude.{◌≡◌, ◌<◌, ◌≤◌, ◌^◌};
ghost use Rattle.sx_dual.specs.Tables.{AreBounds, high_of, low_of};

use crate::entries::entry;
use std::marker::Model;
use sx_base::AssetId;

/// The least and the greatest value that each ordered pair of assets may trade, in units of
/// `2^-24`, at most `2^102`. Contracts see the number of assets and the two lists of entries.
#[derive(Debug, Drop)]
pub struct Bounds {
    assets: u32,
    least: Vec<u128>,
    most: Vec<u128>,
}

impl Model for Bounds {
    ghost use Rattle.sx_dual.specs.Tables.{AreBounds, BoundsTable};

    ghost Value = { BoundsTable };

    ghost view = { λ b. record { assets = b.assets; low = b.least.items; high = b.most.items } };

    ghost invariant = { λ b. AreBounds (record { assets = b.assets; low = b.least.items; high = b.most.items }) };
}

impl Bounds {
    /// The bounds of these entries, if there are 1 to 32 assets. Those of the pair that sells `sell`
    /// and buys `buy` are at place `sell * assets + buy`, the lower one at most the upper one. The
    /// entries of an asset with itself are 0.
    pub fn of(assets: u32, low: Vec<u128>, high: Vec<u128>) -> Bounds
        requires { AreBounds (record { assets = assets; low = low.items; high = high.items }) }
        ensures assets { result.assets ≡ assets }
        ensures low { result.low ≡ low.items }
        ensures high { result.high ≡ high.items }
    {
        Bounds {
            assets,
            least: low,
            most: high,
        }
    }

    /// The number of assets.
    pub fn assets(&self) -> u32
        ensures assets { result ≡ self.now.assets }
        ensures bounds { AreBounds self.now }
    {
        self.assets
    }

    /// The least value that `sell` may trade for `buy`, in units of `2^-24`.
    pub fn low(&self, sell: AssetId, buy: AssetId) -> u128
        requires sell { sell < self.now.assets }
        requires buy { buy < self.now.assets }
        ensures value { result ≡ low_of self.now sell buy }
        ensures in_range { result ≤ 2 ^ 102 }
        ensures itself { sell ≡ buy → result ≡ 0 }
        ensures ordered { result ≤ high_of self.now sell buy }
    {
        entry(&self.least, self.assets, sell, buy)
    }

    /// The greatest value that `sell` may trade for `buy`, in units of `2^-24`.
    pub fn high(&self, sell: AssetId, buy: AssetId) -> u128
        requires sell { sell < self.now.assets }
        requires buy { buy < self.now.assets }
        ensures value { result ≡ high_of self.now sell buy }
        ensures in_range { result ≤ 2 ^ 102 }
        ensures itself { sell ≡ buy → result ≡ 0 }
        ensures ordered { low_of self.now sell buy ≤ result }
    {
        entry(&self.most, self.assets, sell, buy)
    }

    /// The entries of the lower bounds, and those of the upper ones, as the vectors that hold them.
    /// It takes no memory.
    pub fn into_entries(self) -> (Vec<u128>, Vec<u128>)
        ensures low { result.0.items ≡ self.low }
        ensures high { result.1.items ≡ self.high }
        ensures bounds { AreBounds self }
    {
        (self.least, self.most)
    }
}
