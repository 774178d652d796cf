//! A number for each asset, from which the gains of pairs come.

ghost use Rattle.std.specs.Prelude.{◌≡◌, ◌<◌, length, nat_eq};
ghost use Rattle.std.specs.Cmp.{partial_equiv_from_equiv};
ghost use Rattle.std.specs.Cmp.Lexicographic.{pointwise, nat_list_eq_equiv};
ghost use Rattle.sx_dual.specs.Tables.{IsAssetCount, potential_of};

use std::marker::Model;
use sx_base::AssetId;

/// A potential for each asset, at the asset's number. The gain of a pair is 1 and the potential of
/// its sold asset, less the potential of its bought asset. Contracts see the list of the potentials.
#[derive(Debug, Drop)]
pub struct Potentials {
    entries: Vec<u32>,
}

impl Model for Potentials {
    ghost use Rattle.std.specs.Prelude.{ℕ, List, length};
    ghost use Rattle.sx_dual.specs.Tables.{IsAssetCount};

    ghost Value = { List ℕ };

    ghost view = { λ p. p.entries.items };

    ghost invariant = { λ p. IsAssetCount (length p.entries.items) };
}

impl Potentials {
    /// The potentials of 1 to 32 assets.
    pub fn of(values: Vec<u32>) -> Potentials
        requires { IsAssetCount (length values.items) }
        ensures { result ≡ values.items }
    {
        Potentials { entries: values }
    }

    /// The potential of an asset.
    pub fn at(&self, asset: AssetId) -> u32
        requires { asset < length self.now }
        ensures { result ≡ potential_of self.now asset }
    {
        self.entries[usize::from(asset.get())]
    }

    /// The potentials.
    pub fn items(&self) -> &[u32]
        ensures items { result.now ≡ self.now }
        ensures count { IsAssetCount (length self.now) }
    {
        &self.entries
    }

    /// The potentials, as the vector that holds them. It takes no memory.
    pub fn into_items(self) -> Vec<u32>
        ensures items { result.items ≡ self }
        ensures count { IsAssetCount (length self) }
    {
        self.entries
    }
}

impl PartialEq for Potentials {
    ghost eq = { pointwise nat_eq };

    ghost laws = { partial_equiv_from_equiv nat_list_eq_equiv };

    fn eq(&self, other: &Self) -> bool {
        self.items() == other.items()
    }
}

impl Eq for Potentials {
    ghost laws = { nat_list_eq_equiv };
}
