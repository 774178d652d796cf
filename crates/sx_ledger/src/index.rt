//! The ids of accounts, to look many of them up.

ghost use Rattle.std.specs.Prelude.{◌≡◌, ◌≢◌, ℕ, ◌+◌, ◌*◌, ◌/◌, ◌^◌, ◌<◌, ◌≤◌, length, slice_get, slice_index, IfOk, IfSome, IfNone, Some, Contains};
ghost use Rattle.std.specs.Bool.{OnTrue};
ghost use Rattle.std.specs.List.Sorted.{IsStrictlyIncreasing};
ghost use Rattle.sx_ledger.specs.Buckets.{IsBegin, AreBegins};
ghost use Rattle.sx_ledger.specs.Ledger.{ids, most_accounts};

use crate::account::Account;
use crate::place_table::{BLOCK, PlaceTable};
use std::alloc::Global;
use std::marker::Model;
use sx_base::AccountId;
use sx_bytes::NoMemory;

/// The ids of accounts, side by side to be searched fast. Contracts see the list.
///
/// Ids that are equal after a shift to the right are one bucket, and where each bucket begins is in a
/// list of its own, which has a half to the whole of the length of the list of ids where there are
/// many: a search looks through one bucket alone. Where ids lie close together, a table tells their
/// places without a search.
#[derive(Debug, Drop)]
pub struct AccountIndex {
    entries: Vec<u64>,
    table: PlaceTable,
    begins: Vec<u32>,
    shift: u32,
}

impl Model for AccountIndex {
    ghost use Rattle.std.specs.Prelude.{ℕ, ◌≤◌, List, length};
    ghost use Rattle.std.specs.List.Sorted.{IsStrictlyIncreasing};
    ghost use Rattle.sx_ledger.specs.Buckets.{AreBuckets};
    ghost use Rattle.sx_ledger.specs.Ledger.{most_accounts};
    ghost use Rattle.sx_ledger.specs.PlaceTable.{IsTable};

    ghost Value = { List ℕ };

    ghost view = { λ index. index.entries.items };

    ghost invariant = { λ index. IsStrictlyIncreasing index.entries.items × (length index.entries.items ≤ most_accounts) × AreBuckets index.entries.items index.shift index.begins.items × IsTable index.entries.items index.table };
}

// A shift that leaves of the greatest id less than twice the count.
fn shift_of(greatest: u64, count: u64) -> u32
    requires some { 1 ≤ count }
    ensures within { result < 64 }
    ensures few { greatest / 2 ^ result < 2 * count }
{
    let bits = u64::BITS - greatest.leading_zeros();
    bits.saturating_sub(u64::BITS - count.leading_zeros())
}

// Where a bucket begins, where the entries before a place are of earlier buckets.
fn begin_from(entries: &[u64], from: usize, shift: u32, bucket: u64) -> usize
    requires shift { shift < 64 }
    requires by_id { IsStrictlyIncreasing entries.now }
    requires within { from ≤ length entries.now }
    requires earlier { (k : ℕ) → k < from → slice_index entries.now k / 2 ^ shift < bucket }
    ensures { IsBegin entries.now shift bucket result }
{
    let mut place = from;
    while place < entries.len() && entries[place] >> shift < bucket {
        place += 1;
    }
    place
}

// Where each bucket begins, and where the last one ends.
fn begins_of(alloc: Global, entries: &[u64], shift: u32, buckets: u64) -> Result<Vec<u32>, NoMemory>
    requires shift { shift < 64 }
    requires by_id { IsStrictlyIncreasing entries.now }
    requires few { length entries.now ≤ most_accounts }
    requires few_buckets { buckets ≤ 2 * most_accounts + 2 }
    ensures begins { IfOk result (λ begins. AreBegins entries.now shift begins.items) }
    ensures count { IfOk result (λ begins. length begins.items ≡ buckets + 1) }
{
    let mut begins = Vec::with_capacity(alloc, buckets as usize + 1)?;
    let mut begin = 0;
    for bucket in 0..buckets + 1 {
        begin = begin_from(entries, begin, shift, bucket);
        begins.push(begin as u32)?;
    }
    Ok(begins)
}

// The greatest of ids that rise, or 0 where there are none.
fn greatest_of(entries: &[u64]) -> u64
    requires by_id { IsStrictlyIncreasing entries.now }
    ensures { (k : ℕ) → k < length entries.now → slice_index entries.now k ≤ result }
{
    match entries.last() {
        Some(entry) => *entry,
        None => 0,
    }
}

// How many buckets are wanted beside a table. Where it has numbers, they serve no id that is there.
fn wanted_buckets(table: &PlaceTable, ids: usize) -> u64
    requires { ids ≤ most_accounts }
    ensures some { 1 ≤ result }
    ensures few { result ≤ ids / 2 + 1 }
{
    if table.counts.is_empty() {
        return ids as u64 / 2 + 1;
    }
    1
}

// The index of ids that rise.
fn with_buckets(alloc: Global, entries: Vec<u64>) -> Result<AccountIndex, NoMemory>
    requires by_id { IsStrictlyIncreasing entries.items }
    requires few { length entries.items ≤ most_accounts }
    ensures { IfOk result (λ index. index ≡ entries.items) }
{
    let table = PlaceTable::of(alloc, &entries)?;
    let greatest = greatest_of(&entries);
    let shift = shift_of(greatest, wanted_buckets(&table, entries.len()));
    let begins = begins_of(alloc, &entries, shift, (greatest >> shift) + 1)?;
    Ok(AccountIndex {
        entries,
        table,
        begins,
        shift,
    })
}

// The place of an id among one entry or two. The comparison is added and not branched on, since a processor would
// foresee such a branch wrongly half of the time.
fn find_among_two(entries: &[u64], begin: usize, end: usize, id: u64) -> Option<u32>
    requires some { begin < end }
    requires two { end ≤ begin + 2 }
    requires within { end ≤ length entries.now }
    requires few { length entries.now ≤ most_accounts }
    requires by_id { IsStrictlyIncreasing entries.now }
    ensures found { IfSome result (λ place. slice_get entries.now place ≡ Some id) }
    ensures absent { IfNone result ((k : ℕ) → begin ≤ k → k < end → slice_index entries.now k ≢ id) }
{
    let place = begin + (entries[begin] < id) as usize;
    if place < end && entries[place] == id {
        return Some(place as u32);
    }
    None
}

// The place of an id between two places.
fn find_between(entries: &[u64], begin: usize, end: usize, id: u64) -> Option<u32>
    requires ordered { begin ≤ end }
    requires within { end ≤ length entries.now }
    requires few { length entries.now ≤ most_accounts }
    requires by_id { IsStrictlyIncreasing entries.now }
    ensures found { IfSome result (λ place. slice_get entries.now place ≡ Some id) }
    ensures absent { IfNone result ((k : ℕ) → begin ≤ k → k < end → slice_index entries.now k ≢ id) }
{
    if begin == end {
        return None;
    }
    if end - begin <= 2 {
        return find_among_two(entries, begin, end, id);
    }
    match entries[begin..end].binary_search(&id) {
        Ok(place) => Some((begin + place) as u32),
        Err(_) => None,
    }
}

impl AccountIndex {
    /// The ids of accounts that stand by id, at most 65,536.
    pub fn of(alloc: Global, accounts: &[Account]) -> Result<AccountIndex, NoMemory>
        requires by_id { IsStrictlyIncreasing (ids accounts.now) }
        requires few { length accounts.now ≤ most_accounts }
        ensures { IfOk result (λ index. index ≡ ids accounts.now) }
    {
        let entries = accounts.iter().map(|account| account.id.0).collect(alloc)?;
        with_buckets(alloc, entries)
    }

    // What the table tells of an id: its place, or that it is none. It tells nothing of an id that it does not reach.
    fn find_in_table(&self, id: u64) -> Option<Option<u32>>
        ensures found { IfSome result (λ told. IfSome told (λ place. slice_get self.now place ≡ Some id)) }
        ensures absent { IfSome result (λ told. IfNone told (Contains self.now id → ⊥)) }
        ensures by_id { IsStrictlyIncreasing self.now }
    {
        let far = id.checked_sub(self.table.first)? as usize;
        let count = *self.table.counts.get(far)?;
        if count == 0 {
            return Some(None);
        }
        let place = self.table.starts[far / BLOCK] + u32::from(count) - 1;
        Some(Some(place))
    }

    /// The place of the account of this id, or `None` if there is no such account. Where the ids lie
    /// close together, a table tells it. Else a search takes at most as many steps as the number of
    /// accounts has binary digits, and a few where the ids are spread evenly.
    pub fn find(&self, id: AccountId) -> Option<u32>
        ensures found { IfSome result (λ place. slice_get self.now place ≡ Some id.0) }
        ensures absent { IfNone result (Contains self.now id.0 → ⊥) }
        ensures by_id { IsStrictlyIncreasing self.now }
    {
        if let Some(told) = self.find_in_table(id.0) {
            return told;
        }
        let bucket = (id.0 >> self.shift) as usize;
        if bucket >= self.begins.len().saturating_sub(1) {
            return None;
        }
        let begin = self.begins[bucket] as usize;
        let end = self.begins[bucket + 1] as usize;
        find_between(&self.entries, begin, end, id.0)
    }

    // Whether the account of this id stands at a place, which may be any number.
    fn is_at(&self, place: u32, id: AccountId) -> bool
        ensures at { OnTrue result (slice_get self.now place ≡ Some id.0) }
        ensures by_id { IsStrictlyIncreasing self.now }
    {
        match self.entries.get(place as usize) {
            Some(entry) => *entry == id.0,
            None => false,
        }
    }

    // The same as `find`, but the place `near` and the one after it are tried first.
    pub(crate) fn find_near(&self, near: u32, id: AccountId) -> Option<u32>
        ensures found { IfSome result (λ place. slice_get self.now place ≡ Some id.0) }
        ensures absent { IfNone result (Contains self.now id.0 → ⊥) }
    {
        if self.is_at(near, id) {
            return Some(near);
        }
        let next = near.saturating_add(1);
        if self.is_at(next, id) {
            return Some(next);
        }
        self.find(id)
    }
}
