//! Sets of assets.

ghost use Rattle.std.specs.Prelude.{◌≡◌};
ghost use Rattle.sx_dual.specs.Cuts.{goes_in as goes_into, goes_out as goes_out_of, is_in};

use sx_base::AssetId;

/// A set of assets: bit i stands for the asset of number i.
#[derive(Clone, Copy, Debug, PartialEq, Eq, Hash)]
pub struct Cut(pub u32);

impl Cut {
    /// Whether the asset is in the set.
    pub fn contains(self, asset: AssetId) -> bool
        ensures { result ≡ is_in self.0 asset }
    {
        (self.0 >> u32::from(asset.get())) & 1 == 1
    }

    /// Whether a pair goes into the set: its sold asset is outside and its bought asset inside.
    pub fn goes_in(self, sell: AssetId, buy: AssetId) -> bool
        ensures { result ≡ goes_into self.0 sell buy }
    {
        !self.contains(sell) && self.contains(buy)
    }

    /// Whether a pair goes out of the set: its sold asset is inside and its bought asset outside.
    pub fn goes_out(self, sell: AssetId, buy: AssetId) -> bool
        ensures { result ≡ goes_out_of self.0 sell buy }
    {
        self.contains(sell) && !self.contains(buy)
    }
}
