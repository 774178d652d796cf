//! Sums of 8 bytes or of 16, and how entries are added to them.

ghost use Rattle.std.specs.Prelude.{◌≡◌, ◌+◌, ◌≤◌, ◌^◌, IfNone, IfOk, IfSome, OnErr, OnOk};
ghost use Rattle.sx_tally.specs.Sums.{AreSumsAfter, CanAdd, HasRoom, amounts_of, sums_of};

use crate::entry::Entry;
use sx_bytes::NoMemory;

// Sums, each of 8 bytes or each of 16. Beside sums of 8 bytes stands what was added to all of them together. No sum is
// above it.
#[derive(Debug, Drop)]
pub enum Units {
    Narrow { added: u64, sums: Vec<u64> },
    Wide(Vec<u128>),
}

// What is added in all once these entries are added too. It is `None` where that does not fit 8 bytes.
fn added_with(added: u64, entries: &[Entry]) -> Option<u64>
    ensures some { IfSome result (λ total. total ≡ added + amounts_of entries.now) }
    ensures none { IfNone result (2 ^ 64 ≤ added + amounts_of entries.now) }
{
    let mut total = added;
    for k in 0..entries.len() {
        total = total.checked_add(entries[k].amount.get())?;
    }
    Some(total)
}

// The same sums, each of 16 bytes, with room for as many in all.
fn widened(sums: &Vec<u64>) -> Result<Vec<u128>, NoMemory>
    ensures { IfOk result (λ wide. wide.items ≡ sums.now.items) }
{
    let mut wide = Vec::with_capacity(*sums.allocator(), sums.capacity())?;
    for k in 0..sums.len() {
        wide.push(u128::from(sums[k]))?;
    }
    Ok(wide)
}

// Adds entries to sums of 8 bytes, where the rows of their accounts start here.
fn add_narrow(sums: &mut [u64], entries: &[Entry], rows: &[usize])
    requires { CanAdd (2 ^ 64) entries.now rows.now sums.old }
    ensures { AreSumsAfter entries.now rows.now sums.old sums.new }
{
    for k in 0..entries.len() {
        let entry = &entries[k];
        let at = rows[k] + usize::from(entry.asset.get());
        sums[at] += entry.amount.get();
    }
}

// Adds entries to sums of 16 bytes, where the rows of their accounts start here.
fn add_wide(sums: &mut [u128], entries: &[Entry], rows: &[usize])
    requires { CanAdd (2 ^ 128) entries.now rows.now sums.old }
    ensures { AreSumsAfter entries.now rows.now sums.old sums.new }
{
    for k in 0..entries.len() {
        let entry = &entries[k];
        let at = rows[k] + usize::from(entry.asset.get());
        sums[at] += u128::from(entry.amount.get());
    }
}

impl Units {
    // Makes room for entries that are added next. Where all that is added would no longer fit 8 bytes, the sums take 16
    // from then on. Where memory runs out, nothing changes.
    pub fn make_room(&mut self, entries: &[Entry]) -> Result<(), NoMemory>
        requires { HasRoom 0 self.old }
        ensures same { sums_of self.new ≡ sums_of self.old }
        ensures room { OnOk result (HasRoom (amounts_of entries.now) self.new) }
        ensures kept { OnErr result (HasRoom 0 self.new) }
    {
        if let Units::Narrow { added, sums } = self {
            match added_with(*added, entries) {
                Some(total) => *added = total,
                None => *self = Units::Wide(widened(sums)?),
            }
        }
        Ok(())
    }

    // Adds entries for which there is room, where the rows of their accounts start here. It asks for the width once, so
    // that the body of the loop over the entries is short.
    pub fn add_all(&mut self, entries: &[Entry], rows: &[usize])
        requires room { HasRoom (amounts_of entries.now) self.old }
        requires entries { CanAdd (2 ^ 128) entries.now rows.now (sums_of self.old) }
        ensures room { HasRoom 0 self.new }
        ensures after { AreSumsAfter entries.now rows.now (sums_of self.old) (sums_of self.new) }
    {
        match self {
            Units::Narrow { sums, .. } => add_narrow(sums, entries, rows),
            Units::Wide(sums) => add_wide(sums, entries, rows),
        }
    }
}
