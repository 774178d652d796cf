//! What an account holds.

ghost use Rattle.std.specs.Prelude.{◌≡◌, IfOk, nat_eq};
ghost use Rattle.std.specs.Cmp.{partial_equiv_from_equiv};
ghost use Rattle.std.specs.Cmp.Lexicographic.{nat_list_eq_equiv, pointwise};

use smallvec::SmallVec;
use std::alloc::Global;
use std::marker::Model;
use sx_bytes::NoMemory;

/// The vector of balances: up to eight stand in the value itself, and more in an allocation.
pub type BalanceVec = SmallVec<u64, 8>;

/// What an account holds: the whole units of each asset, in the assets' order. Contracts see the list.
#[derive(Debug, Drop)]
pub struct Balances {
    entries: BalanceVec,
}

impl Model for Balances {
    ghost use Rattle.std.specs.Prelude.{List, ℕ};

    ghost Value = { List ℕ };

    ghost view = { λ balances. balances.entries.items };
}

impl Balances {
    /// The balances that a vector holds, which is taken as it is. It takes no memory.
    pub fn of(entries: BalanceVec) -> Balances
        ensures { result ≡ entries.items }
    {
        Balances { entries }
    }

    /// The units of each asset.
    #[inline]
    pub fn items(&self) -> &[u64]
        ensures { result.now ≡ self.now }
    {
        self.entries.as_slice()
    }

    /// A list of its own with the same balances, made with the same allocator.
    pub fn copy(&self) -> Result<Balances, NoMemory>
        ensures { IfOk result (λ copy. copy ≡ self.now) }
    {
        let entries = BalanceVec::from_slice(*self.entries.allocator(), self.entries.as_slice())?;
        Ok(Balances { entries })
    }

    /// Gives the vector back. It takes no memory.
    pub fn into_items(self) -> BalanceVec
        ensures { result.items ≡ self }
    {
        self.entries
    }
}

impl PartialEq for Balances {
    ghost eq = { pointwise nat_eq };

    ghost laws = { partial_equiv_from_equiv nat_list_eq_equiv };

    fn eq(&self, other: &Self) -> bool {
        self.items() == other.items()
    }
}

impl Eq for Balances {
    ghost laws = { nat_list_eq_equiv };
}
