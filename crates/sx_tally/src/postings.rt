//! What a body debits and credits, account by account and asset by asset.

ghost use Rattle.std.specs.Prelude.{◌≡◌, ◌≢◌, ℕ, ◌+◌, ◌<◌, ◌≤◌, length, slice_index, slice_index_or, IfOk, OnOk};
ghost use Rattle.std.specs.Bool.{OnFalse};
ghost use Rattle.sx_tally.specs.declared.entry.Entry.{Entry as AnyEntry};
ghost use Rattle.sx_tally.specs.Postings.{AreRowsFound, AreRowsOpen, AreWithin, CanPost, HasRows, credit_at, debit_at};
ghost use Rattle.sx_tally.specs.Postings.{start_of, units_in};

use crate::entry::Entry;
use crate::sums::Sums;
use std::alloc::Global;
use sx_bytes::NoMemory;

/// Sums of debits and of credits for each asset of some accounts, which are named by their places. An
/// account gets a row of sums with its first posting. The first row stands for all accounts without one,
/// and stays zero.
///
/// ```text
///     place      0    1    2    3           two assets
///     starts     0    4    0    2
///
///     debits   [ 0 0 | p q | r s ]          the row of place 3 starts at 2, that of place 1 at 4
///     credits  [ 0 0 | t u | v w ]
/// ```
#[derive(Debug, Drop)]
pub struct Postings {
    assets: usize,
    starts: Vec<usize>,
    debits: Sums,
    credits: Sums,
}

// Finds where the row of each account of these entries starts. It is 0 where the account has none.
fn find_rows(starts: &[usize], entries: &[Entry], rows: &mut [usize])
    requires places { (k : ℕ) (entry : AnyEntry) → k < length entries.now
        → (slice_index_or entries.now k entry).place < length starts.now }
    requires one_each { length rows.old ≡ length entries.now }
    ensures one_each { length rows.new ≡ length entries.now }
    ensures found { (k : ℕ) (entry : AnyEntry) → k < length entries.now
        → slice_index rows.new k ≡ slice_index starts.now (slice_index_or entries.now k entry).place }
{
    for k in 0..entries.len() {
        rows[k] = starts[entries[k].place as usize];
    }
}

impl Postings {
    /// No posting for any of these accounts, with room for the rows of so many of them.
    pub fn zero(
        alloc: Global,
        places: usize,
        assets: usize,
        named: usize,
    ) -> Result<Postings, NoMemory>
        requires some_asset { 1 ≤ assets }
        ensures rows { IfOk result (λ postings. HasRows postings places assets) }
        ensures debits { IfOk result (λ postings. (p x : ℕ) → x < assets → debit_at postings p x ≡ 0) }
        ensures credits { IfOk result (λ postings. (p x : ℕ) → x < assets → credit_at postings p x ≡ 0) }
    {
        let room = named.saturating_add(1).saturating_mul(assets);
        Ok(Postings {
            assets,
            starts: vec![in alloc; 0; places]?,
            debits: Sums::zeros(alloc, assets, room)?,
            credits: Sums::zeros(alloc, assets, room)?,
        })
    }

    // Where the row of the account at a place starts. The account gets one if it has none.
    fn open(&mut self, place: usize) -> Result<usize, NoMemory>
        requires place { place < length self.old.starts.items }
        requires some_asset { 1 ≤ self.old.assets }
        requires rows { HasRows self.old (length self.old.starts.items) self.old.assets }
        ensures start { IfOk result (λ start. start_of self.new place ≡ start) }
        ensures own { IfOk result (λ start. 1 ≤ start) }
        ensures others { OnOk result ((p : ℕ) → start_of self.old p ≢ 0 → start_of self.new p ≡ start_of self.old p) }
        ensures rows { OnOk result (HasRows self.new (length self.old.starts.items) self.old.assets) }
        ensures debits { OnOk result ((p x : ℕ) → p < length self.old.starts.items → x < self.old.assets
            → debit_at self.new p x ≡ debit_at self.old p x) }
        ensures credits { OnOk result ((p x : ℕ) → p < length self.old.starts.items → x < self.old.assets
            → credit_at self.new p x ≡ credit_at self.old p x) }
    {
        let start = self.starts[place];
        if start != 0 {
            return Ok(start);
        }
        let start = self.debits.len();
        self.debits.resize(start + self.assets)?;
        self.credits.resize(start + self.assets)?;
        self.starts[place] = start;
        Ok(start)
    }

    // Opens a row for each account of these entries that has none. Where an account has one, it has been found.
    fn open_rows(&mut self, entries: &[Entry], rows: &mut [usize]) -> Result<(), NoMemory>
        requires within { AreWithin (length self.old.starts.items) self.old.assets entries.now }
        requires one_each { length rows.old ≡ length entries.now }
        requires found { AreRowsFound self.old entries.now rows.old }
        requires rows { HasRows self.old (length self.old.starts.items) self.old.assets }
        ensures one_each { length rows.new ≡ length entries.now }
        ensures open { OnOk result (AreRowsOpen self.new entries.now rows.new) }
        ensures rows { OnOk result (HasRows self.new (length self.old.starts.items) self.old.assets) }
        ensures debits { OnOk result ((p x : ℕ) → p < length self.old.starts.items → x < self.old.assets
            → debit_at self.new p x ≡ debit_at self.old p x) }
        ensures credits { OnOk result ((p x : ℕ) → p < length self.old.starts.items → x < self.old.assets
            → credit_at self.new p x ≡ credit_at self.old p x) }
    {
        for k in 0..entries.len() {
            if rows[k] == 0 {
                rows[k] = self.open(entries[k].place as usize)?;
            }
        }
        Ok(())
    }

    /// Adds entries to what is debited to their accounts: it finds their rows, opens those that are missing, and then
    /// adds the amounts. The body of each of these loops is so short that the processor reads the memory for many
    /// entries at the same time. What `rows` contains before does not matter.
    pub fn debit_all(&mut self, entries: &[Entry], rows: &mut Vec<usize>) -> Result<(), NoMemory>
        requires { CanPost self.old debit_at entries.now }
        ensures rows { OnOk result (HasRows self.new (length self.old.starts.items) self.old.assets) }
        ensures credits { OnOk result ((p x : ℕ) → p < length self.old.starts.items → x < self.old.assets
            → credit_at self.new p x ≡ credit_at self.old p x) }
        ensures debits { OnOk result ((p x : ℕ) → p < length self.old.starts.items → x < self.old.assets
            → debit_at self.new p x ≡ debit_at self.old p x + units_in entries.now p x) }
    {
        rows.resize(entries.len(), 0)?;
        let rows = rows.as_mut_slice();
        find_rows(&self.starts, entries, rows);
        self.open_rows(entries, rows)?;
        self.debits.add_all(entries, rows)
    }

    /// The same for what is credited.
    pub fn credit_all(&mut self, entries: &[Entry], rows: &mut Vec<usize>) -> Result<(), NoMemory>
        requires { CanPost self.old credit_at entries.now }
        ensures rows { OnOk result (HasRows self.new (length self.old.starts.items) self.old.assets) }
        ensures debits { OnOk result ((p x : ℕ) → p < length self.old.starts.items → x < self.old.assets
            → debit_at self.new p x ≡ debit_at self.old p x) }
        ensures credits { OnOk result ((p x : ℕ) → p < length self.old.starts.items → x < self.old.assets
            → credit_at self.new p x ≡ credit_at self.old p x + units_in entries.now p x) }
    {
        rows.resize(entries.len(), 0)?;
        let rows = rows.as_mut_slice();
        find_rows(&self.starts, entries, rows);
        self.open_rows(entries, rows)?;
        self.credits.add_all(entries, rows)
    }

    /// Whether anything is posted for the account at a place.
    pub fn is_named(&self, place: usize) -> bool
        requires place { place < length self.now.starts.items }
        ensures no { OnFalse result (start_of self.now place ≡ 0) }
    {
        self.starts[place] != 0
    }

    /// What is debited of an asset to the account at a place.
    pub fn debited(&self, place: usize, asset: usize) -> u128
        requires place { place < length self.now.starts.items }
        requires asset { asset < self.now.assets }
        requires rows { HasRows self.now (length self.now.starts.items) self.now.assets }
        ensures { result ≡ debit_at self.now place asset }
    {
        self.debits.get(self.starts[place], asset)
    }

    /// What is credited of an asset to the account at a place.
    pub fn credited(&self, place: usize, asset: usize) -> u128
        requires place { place < length self.now.starts.items }
        requires asset { asset < self.now.assets }
        requires rows { HasRows self.now (length self.now.starts.items) self.now.assets }
        ensures { result ≡ credit_at self.now place asset }
    {
        self.credits.get(self.starts[place], asset)
    }
}
