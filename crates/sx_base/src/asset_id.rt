//! Which asset.

ghost use Rattle.std.specs.Prelude.{◌≡◌, ◌<◌, ◌↔◌, IsOk, IfOk};
ghost use Rattle.sx_base.specs.Ranges.{most_assets};

use std::marker::Model;
use thiserror::Error;

/// Which asset: its place among the assets, from 0 and below 32.
#[derive(Clone, Copy, Debug, PartialEq, Eq, PartialOrd, Ord, Hash)]
pub struct AssetId {
    number: u8,
}

/// There is no such asset: its place would be 32 or more.
#[derive(Clone, Copy, Debug, PartialEq, Eq, Error)]
#[error("an asset's number is below 32")]
pub struct AssetRange;

impl Model for AssetId {
    ghost use Rattle.std.specs.Prelude.{ℕ, ◌<◌};
    ghost use Rattle.sx_base.specs.Ranges.{most_assets};

    ghost Value = { ℕ };

    ghost view = { λ asset. asset.number };

    ghost invariant = { λ asset. asset.number < most_assets };

    ghost inverse = { λ n. record { number = n } };
}

impl AssetId {
    /// How many assets there may be.
    pub const LIMIT: u8 = 32;

    /// The asset at the place `raw`. `AssetRange` comes exactly where that is 32 or more.
    pub fn new(raw: u8) -> Result<Self, AssetRange>
        ensures in_range { IsOk result ↔ (raw < most_assets) }
        ensures value { IfOk result (λ asset. asset ≡ raw) }
    {
        if raw < Self::LIMIT {
            Ok(AssetId { number: raw })
        } else {
            Err(AssetRange)
        }
    }

    /// The asset's place.
    pub fn get(&self) -> u8
        ensures value { result ≡ self.now }
        ensures in_range { result < most_assets }
    {
        self.number
    }
}
