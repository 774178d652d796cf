//! The lines of many entries, written by several threads.
//!
//! Each thread has a part of the entries. The first one appends the lines of its part to the text, while each of the other
//! ones writes those of its part to a text of its own. These are appended then, one after the other, each once.

ghost use Rattle.std.specs.Prelude.{◌≡◌, ◌*◌, ◌≤◌, ◌++◌, OnOk, string_bytes};
ghost use Rattle.std.specs.List.{flat_map};
ghost use Rattle.std.specs.Thread.{IsSync};

use crate::entries::{Line, put_each, room};
use std::thread::Threads;
use sx_bytes::NoMemory;
use sx_fork::fork_mut;

// How many entries are worth a thread of their own. To write their lines takes half a millisecond or more, and to start
// a thread a part of that.
const WORTH_A_THREAD: usize = 4_096;

// Appends the lines of entries, written by so many threads.
fn put_by<R: Threads + Sync, T: Sync, L: Line<T> + Sync>(
    rt: &R,
    threads: usize,
    shape: &L,
    to: &mut String,
    entries: &[T],
) -> Result<(), NoMemory>
    ensures { OnOk result
        (string_bytes to.new ≡ string_bytes to.old ++ flat_map (L.line shape.now) entries.now) }
{
    if threads < 2 {
        return put_each(shape, to, entries);
    }
    let others = threads - 1;
    let share = entries.len() / threads;
    let (front, back) = entries.split_at(entries.len() - share);
    let alloc = *to.allocator();
    let mut later = String::with_capacity(alloc, room(alloc, shape, back)?)?;
    let (last, before) = fork_mut(
        rt,
        others < 2,
        &mut || -> Result<(), NoMemory>
            requires { IsSync T.row × IsSync L.row }
            ensures { OnOk result
                (string_bytes later.exit ≡ string_bytes later.entry ++ flat_map (L.line shape.entry.now) back.entry.now) }
        { put_each(shape, &mut later, back) },
        &mut || -> Result<(), NoMemory>
            requires { IsSync R.row × IsSync T.row × IsSync L.row × (1 ≤ others) }
            ensures { OnOk result
                (string_bytes to.exit.now ≡ string_bytes to.entry.now ++ flat_map (L.line shape.entry.now) front.entry.now) }
        { put_by(rt, others, shape, to, front) },
    );
    before?;
    last?;
    to.push_str(later.as_str())?;
    Ok(())
}

/// Appends the lines of entries. As many as `workers` threads write those of many entries.
pub fn put_spread<R: Threads + Sync, T: Sync, L: Line<T> + Sync>(
    rt: &R,
    workers: u32,
    shape: &L,
    to: &mut String,
    entries: &[T],
) -> Result<(), NoMemory>
    ensures { OnOk result
        (string_bytes to.new ≡ string_bytes to.old ++ flat_map (L.line shape.now) entries.now) }
{
    let threads = (entries.len() / WORTH_A_THREAD).min(workers as usize);
    put_by(rt, threads, shape, to, entries)
}
