//! Where the blocks of each height stand.

ghost use Rattle.std.specs.Prelude.{◌≡◌, ℕ, ◌++◌, ◌∷◌, [], ◌==◌, if◌then◌else◌, OnErr, OnOk};
ghost use Rattle.sx_follow.specs.Waiting.{places_at};

use std::alloc::Global;
use std::collections::BTreeMap;
use sx_bytes::NoMemory;

/// The places of the blocks of each height, in the order in which the blocks came.
#[derive(Debug, Drop)]
pub struct Waiting {
    places: BTreeMap<u64, Vec<u32>>,
}

impl Waiting {
    /// No places.
    pub fn new(alloc: Global) -> Waiting
        ensures { (height : ℕ) → places_at result height ≡ [] }
    {
        Waiting {
            places: BTreeMap::new(alloc),
        }
    }

    /// Enters the place of a block of this height, after the others of the height.
    pub fn enter(&mut self, alloc: Global, height: u64, place: u32) -> Result<(), NoMemory>
        ensures entered { OnOk result ((other : ℕ)
            → places_at self.new other ≡ places_at self.old other ++ (if height == other then place ∷ [] else [])) }
        ensures kept { OnErr result ((other : ℕ) → places_at self.new other ≡ places_at self.old other) }
    {
        let places = self.places.entry(height)?.or_insert(Vec::new(alloc));
        places.push(place)?;
        Ok(())
    }

    /// The places of the blocks of a height.
    pub fn at(&self, height: u64) -> &[u32]
        ensures { result.now ≡ places_at self.now height }
    {
        match self.places.get(&height) {
            Some(places) => places,
            None => &[],
        }
    }
}
