//! Where ids that lie close together stand.

ghost use Rattle.std.specs.Prelude.{◌≡◌, ℕ, ◌+◌, ◌<◌, ◌≤◌, List, length, slice_index, IfOk, OnOk};
ghost use Rattle.std.specs.List.Sorted.{IsStrictlyIncreasing};
ghost use Rattle.sx_ledger.specs.Ledger.{most_accounts};
ghost use Rattle.sx_ledger.specs.PlaceTable.{IsFilled, IsTable};

use std::alloc::Global;
use sx_bytes::NoMemory;

// How many numbers are a block.
pub(crate) const BLOCK: usize = 128;

// The longest table, in numbers for each id.
const WORTH_AN_ID: usize = 16;

// Where ids stand that rise, with one byte for each number from the first id to the last. The numbers are cut into
// blocks. For each block there is the number of ids before it, and for each number that is an id the number of ids
// from the first one of its block up to it. A number that is none has 0.
#[derive(Debug, Drop)]
pub(crate) struct PlaceTable {
    pub(crate) first: u64,
    pub(crate) counts: Vec<u8>,
    pub(crate) starts: Vec<u32>,
}

// Has each block up to this one start, those that did not yet at this place.
fn start_blocks(starts: &mut Vec<u32>, block: usize, place: u32) -> Result<(), NoMemory>
    ensures started { OnOk result (block < length starts.new.items) }
    ensures kept { OnOk result ((b : ℕ) → b < length starts.old.items → slice_index starts.new.items b ≡ slice_index starts.old.items b) }
    ensures longer { OnOk result (length starts.old.items ≤ length starts.new.items) }
    ensures here { OnOk result ((b : ℕ) → length starts.old.items ≤ b → b < length starts.new.items
        → (slice_index starts.new.items b ≡ place) × (b ≤ block)) }
{
    while starts.len() <= block {
        starts.push(place)?;
    }
    Ok(())
}

impl PlaceTable {
    // A table of no numbers.
    fn of_none(alloc: Global) -> PlaceTable
        ensures { (entries : List ℕ) → IsTable entries result }
    {
        PlaceTable {
            first: 0,
            counts: Vec::new(alloc),
            starts: Vec::new(alloc),
        }
    }

    // Enters the id at a place, after those before it.
    fn enter(&mut self, entries: &[u64], place: usize) -> Result<(), NoMemory>
        requires by_id { IsStrictlyIncreasing entries.now }
        requires few { length entries.now ≤ most_accounts }
        requires within { place < length entries.now }
        requires from { self.old.first ≤ slice_index entries.now place }
        requires filled { IsFilled entries.now place self.old }
        ensures filled { OnOk result (IsFilled entries.now (place + 1) self.new) }
        ensures same { self.new.first ≡ self.old.first }
    {
        let far = (entries[place] - self.first) as usize;
        if far >= self.counts.len() {
            return Ok(());
        }
        let block = far / BLOCK;
        start_blocks(&mut self.starts, block, place as u32)?;
        let start = self.starts[block] as usize;
        self.counts[far] = (place - start + 1) as u8;
        Ok(())
    }

    // The table of ids of which this is the first, for so many numbers.
    fn filled(
        alloc: Global,
        entries: &[u64],
        first: u64,
        numbers: usize,
    ) -> Result<PlaceTable, NoMemory>
        requires by_id { IsStrictlyIncreasing entries.now }
        requires few { length entries.now ≤ most_accounts }
        requires first { (k : ℕ) → k < length entries.now → first ≤ slice_index entries.now k }
        ensures { IfOk result (IsTable entries.now) }
    {
        let mut table = PlaceTable {
            first,
            counts: vec![in alloc; 0; numbers]?,
            starts: Vec::with_capacity(alloc, numbers / BLOCK + 1)?,
        };
        for place in 0..entries.len() {
            table.enter(entries, place)?;
        }
        Ok(table)
    }

    // The table of ids that rise. Where they lie far apart it has no numbers.
    pub(crate) fn of(alloc: Global, entries: &[u64]) -> Result<PlaceTable, NoMemory>
        requires by_id { IsStrictlyIncreasing entries.now }
        requires few { length entries.now ≤ most_accounts }
        ensures { IfOk result (IsTable entries.now) }
    {
        let (Some(first), Some(last)) = (entries.first(), entries.last()) else {
            return Ok(PlaceTable::of_none(alloc));
        };
        let length = last.saturating_sub(*first);
        if length >= (entries.len() * WORTH_AN_ID) as u64 {
            return Ok(PlaceTable::of_none(alloc));
        }
        PlaceTable::filled(alloc, entries, *first, length as usize + 1)
    }
}
