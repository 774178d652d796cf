//! Values by two numbers, for which memory is taken ahead.
ghost use Rattle.std.specs.Prelude.{◌≡◌, ◌+◌, ◌*◌, ◌<◌, ◌≤◌, ◌==◌, ◌&&◌, if◌then◌else◌, ℕ, length, replicate, map, Some, None, IfOk, OnOk};
ghost use Rattle.sx_event.specs.Buckets.{bucket_of, entry_of, newest_first, AreChained};
ghost use Rattle.sx_event.specs.Tables.{value_in};

use std::alloc::Global;
use std::marker::Model;
use sx_bytes::NoMemory;

// What is known of a purse, in each of many tables.
//
// All values stand as notes in one log, in the order in which they were put. Each purse has a bucket.
// The notes of a bucket are a chain, from the newest to the oldest: the bucket's head is the newest,
// and each note has the one before it. A look goes along a chain to the first note of its table and
// its purse, and to the end of the chain if there is none.
#[derive(Debug, Drop)]
pub struct Tables {
    // For each bucket 1 + the place of its newest note, or 0 if it has none.
    heads: Vec<usize>,
    log: Vec<Noted>,
}

#[derive(Clone, Copy, Debug)]
struct Noted {
    table: u32,
    purse: u32,
    value: u64,
    // 1 + the place of the note before it in its bucket, or 0 if there is none.
    before: usize,
}

impl Model for Tables {
    ghost use Rattle.std.specs.Prelude.{◌-◌, ◌*◌, min, vec_len, vec_capacity};
    ghost use Rattle.sx_event.specs.Buckets.{newest_first, AreKept};
    ghost use Rattle.sx_event.specs.Tables.{Tabled};

    ghost Value = { Tabled };

    ghost view = { λ t. record {
      entries = newest_first t.log.items;
      room = min (4 * vec_len t.heads) (vec_capacity t.log - vec_len t.log);
    } };

    ghost invariant = { λ t. AreKept t.heads.items t.log.items };
}

impl Noted {
    // Whether this is the table and the purse of the note.
    fn is_of(self, table: u32, purse: u32) -> bool
        ensures { result ≡ ((table == self.table) && (purse == self.purse)) }
    {
        table == self.table && purse == self.purse
    }
}

// The bucket of a purse, where there are so many. Their number is a power of two, so each purse below
// it has a bucket of its own.
fn bucket_of(buckets: usize, purse: u32) -> usize
    requires { 0 < buckets }
    ensures bucket { result ≡ bucket_of buckets purse }
    ensures within { result < buckets }
{
    purse as usize & (buckets - 1)
}

// The heads of buckets without notes, at least one for each four notes that there are to be. It may
// answer `NoMemory`.
fn heads_for(alloc: Global, notes: usize) -> Result<Vec<usize>, NoMemory>
    ensures free { IfOk result (λ heads. heads.items ≡ replicate (length heads.items) 0) }
    ensures enough { IfOk result (λ heads. notes < 4 * length heads.items) }
{
    let buckets = (notes / 4 + 1).next_power_of_two();
    Ok(vec![in alloc; 0; buckets]?)
}

// Chains the notes of a log anew, by buckets that have none yet.
fn chain(heads: &mut [usize], log: &mut [Noted])
    requires some { 0 < length heads.old }
    requires free { heads.old ≡ replicate (length heads.old) 0 }
    ensures count { length heads.new ≡ length heads.old }
    ensures entries { map entry_of log.new ≡ map entry_of log.old }
    ensures chained { AreChained heads.new log.new (length log.new) }
{
    'chain: for place in 0..log.len() {
        let bucket = bucket_of(heads.len(), log[place].purse);
        log[place].before = heads[bucket];
        heads[bucket] = place + 1;
    }
}

// The value of the newest note with this table and this purse.
fn find(heads: &[usize], log: &[Noted], table: u32, purse: u32) -> Option<u64>
    requires some { 0 < length heads.now }
    requires chained { AreChained heads.now log.now (length log.now) }
    ensures { result ≡ value_in (newest_first log.now) table purse }
{
    let mut place = heads[bucket_of(heads.len(), purse)];
    'walk: while place > 0 {
        let note = log[place - 1];
        if note.is_of(table, purse) {
            return Some(note.value);
        }
        place = note.before;
    }
    None
}

impl Tables {
    // Tables with no value, and no room for one. It takes no memory.
    pub fn new(alloc: Global) -> Self
        ensures { (table purse : ℕ) → value_in result.entries table purse ≡ None }
    {
        Tables {
            heads: Vec::new(alloc),
            log: Vec::new(alloc),
        }
    }

    // Makes room for `more` more values. Where there would be four or more to a bucket, it makes at least
    // twice as many buckets and chains all notes anew. Where memory runs out, it changes nothing.
    pub fn reserve(&mut self, more: usize) -> Result<(), NoMemory>
        ensures values { (table purse : ℕ) →
            value_in self.new.entries table purse ≡ value_in self.old.entries table purse }
        ensures falls_never { self.old.room ≤ self.new.room }
        ensures ok { OnOk result (more ≤ self.new.room) }
    {
        let notes = match self.log.len().checked_add(more) {
            Some(notes) => notes,
            None => return Err(NoMemory),
        };
        if notes / 4 < self.heads.len() {
            self.log.reserve(more)?;
            return Ok(());
        }
        let mut heads = heads_for(*self.log.allocator(), notes)?;
        self.log.reserve(more)?;
        chain(&mut heads, &mut self.log);
        self.heads = heads;
        Ok(())
    }

    // What this table has of the purse.
    pub fn get(&self, table: u32, purse: u32) -> Option<u64>
        ensures { result ≡ value_in self.now.entries table purse }
    {
        if self.heads.is_empty() {
            return None;
        }
        find(&self.heads, &self.log, table, purse)
    }

    // Puts a value into a table. It takes no memory.
    pub fn put(&mut self, table: u32, purse: u32, value: u64)
        requires { 1 ≤ self.old.room }
        ensures values { (other of : ℕ) → value_in self.new.entries other of ≡
            (if (table == other) && (purse == of) then Some value else value_in self.old.entries other of) }
        ensures room { self.old.room ≤ self.new.room + 1 }
    {
        let bucket = bucket_of(self.heads.len(), purse);
        let before = self.heads[bucket];
        self.log.push_reserved(Noted {
            table,
            purse,
            value,
            before,
        });
        self.heads[bucket] = self.log.len();
    }
}
