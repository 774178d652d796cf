//! Sums that take 8 bytes each as long as they can.

ghost use Rattle.std.specs.Prelude.{◌≡◌, ℕ, ◌+◌, ◌<◌, ◌≤◌, ◌^◌, length, replicate, slice_index, IfOk, OnOk};
ghost use Rattle.sx_tally.specs.Sums.{AreSumsAfter, CanAdd};

use crate::entry::Entry;
use crate::units::Units;
use std::alloc::Global;
use std::marker::Model;
use sx_bytes::NoMemory;

// Sums, each of 8 bytes as long as all that was added is below 2^64, and of 16 bytes from then on. Contracts see the
// list of the sums.
#[derive(Debug, Drop)]
pub struct Sums {
    units: Units,
}

impl Model for Sums {
    ghost use Rattle.std.specs.Prelude.{List, ℕ};

    ghost Value = { List ℕ };

    ghost use Rattle.sx_tally.specs.Sums.{HasRoom, sums_of};

    ghost view = { λ s. sums_of s.units };

    ghost invariant = { λ s. HasRoom 0 s.units };
}

impl Sums {
    // So many sums of zero, with room for this many in all.
    pub fn zeros(alloc: Global, count: usize, room: usize) -> Result<Sums, NoMemory>
        ensures { IfOk result (λ sums. sums ≡ replicate count 0) }
    {
        let mut sums = Vec::with_capacity(alloc, room)?;
        sums.resize(count, 0)?;
        Ok(Sums {
            units: Units::Narrow { added: 0, sums },
        })
    }

    // How many sums there are.
    pub fn len(&self) -> usize
        ensures number { result ≡ length self.now }
        ensures few { result < 2 ^ 63 }
    {
        match &self.units {
            Units::Narrow { sums, .. } => sums.len(),
            Units::Wide(sums) => sums.len(),
        }
    }

    // The sum of an asset in the row that starts here.
    pub fn get(&self, row: usize, asset: usize) -> u128
        requires { row + asset < length self.now }
        ensures { result ≡ slice_index self.now (row + asset) }
    {
        match &self.units {
            Units::Narrow { sums, .. } => u128::from(sums[row + asset]),
            Units::Wide(sums) => sums[row + asset],
        }
    }

    // Puts sums of zero behind the others, so that there are so many.
    pub fn resize(&mut self, count: usize) -> Result<(), NoMemory>
        requires { length self.old ≤ count }
        ensures as_many { OnOk result (length self.new ≡ count) }
        ensures kept { OnOk result ((at : ℕ) → at < length self.old → slice_index self.new at ≡ slice_index self.old at) }
        ensures zeros { OnOk result ((at : ℕ) → length self.old ≤ at → slice_index self.new at ≡ 0) }
    {
        match &mut self.units {
            Units::Narrow { sums, .. } => sums.resize(count, 0)?,
            Units::Wide(sums) => sums.resize(count, 0)?,
        }
        Ok(())
    }

    // Adds entries, where the rows of their accounts start here.
    pub fn add_all(&mut self, entries: &[Entry], rows: &[usize]) -> Result<(), NoMemory>
        requires { CanAdd (2 ^ 128) entries.now rows.now self.old }
        ensures { OnOk result (AreSumsAfter entries.now rows.now self.old self.new) }
    {
        self.units.make_room(entries)?;
        self.units.add_all(entries, rows);
        Ok(())
    }
}
