//! The value that each pair trades.

ghost use Rattle.std.specs.Prelude.{◌≡◌, ◌<◌, ◌≤◌, ◌^◌};
ghost use Rattle.sx_dual.specs.Tables.{IsFlow, value_of};

use crate::entries::entry;
use std::marker::Model;
use sx_base::AssetId;

/// The value that each ordered pair of assets trades, in units of `2^-24`, at most `2^102`. Contracts
/// see the number of assets and the list of entries.
#[derive(Debug, Drop)]
pub struct Flow {
    assets: u32,
    entries: Vec<u128>,
}

impl Model for Flow {
    ghost use Rattle.sx_dual.specs.Tables.{FlowTable, IsFlow};

    ghost Value = { FlowTable };

    ghost view = { λ flow. record { assets = flow.assets; values = flow.entries.items } };

    ghost invariant = { λ flow. IsFlow (record { assets = flow.assets; values = flow.entries.items }) };
}

impl Flow {
    /// The flow of these entries, if there are 1 to 32 assets. The value that `sell` trades for
    /// `buy` is at place `sell * assets + buy`, and the entry of an asset with itself is 0.
    pub fn of(assets: u32, values: Vec<u128>) -> Flow
        requires { IsFlow (record { assets = assets; values = values.items }) }
        ensures assets { result.assets ≡ assets }
        ensures values { result.values ≡ values.items }
    {
        Flow {
            assets,
            entries: values,
        }
    }

    /// The number of assets.
    pub fn assets(&self) -> u32
        ensures assets { result ≡ self.now.assets }
        ensures flow { IsFlow self.now }
    {
        self.assets
    }

    /// The value that `sell` trades for `buy`, in units of `2^-24`.
    pub fn at(&self, sell: AssetId, buy: AssetId) -> u128
        requires sell { sell < self.now.assets }
        requires buy { buy < self.now.assets }
        ensures value { result ≡ value_of self.now sell buy }
        ensures in_range { result ≤ 2 ^ 102 }
        ensures itself { sell ≡ buy → result ≡ 0 }
    {
        entry(&self.entries, self.assets, sell, buy)
    }

    /// The entries.
    pub fn values(&self) -> &[u128]
        ensures values { result.now ≡ self.now.values }
        ensures flow { IsFlow self.now }
    {
        &self.entries
    }

    /// The entries, as the vector that holds them. It takes no memory.
    pub fn into_values(self) -> Vec<u128>
        ensures values { result.items ≡ self.values }
        ensures flow { IsFlow self }
    {
        self.entries
    }
}
