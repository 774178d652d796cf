//! The searches at once.

ghost use Rattle.std.specs.Prelude.{◌≡◌, ◌<◌, ◌≤◌, IfOk, length, vec_len};
ghost use Rattle.sx_multi.specs.Slots.{AreFound, IsFound};

use crate::number::first_exponent;
use std::alloc::Global;
use std::thread::Threads;
use sx_bytes::NoMemory;
use sx_curve::Curves;
use sx_fork::for_each_mut;
use sx_price::{Mu, Prices};
use sx_search::{Found, search_from};

// Where a search ended, once it has.
pub(crate) type Slot = Option<Result<Found, NoMemory>>;

// A slot for each search, none of which has ended.
fn empty_slots(alloc: Global, count: u32) -> Result<Vec<Slot>, NoMemory>
    ensures { IfOk result (λ slots. vec_len slots ≡ count) }
{
    let mut slots = Vec::with_capacity(alloc, count as usize)?;
    for _ in 0..count {
        slots.push(None)?;
    }
    Ok(slots)
}

// Runs the search of each slot, in a thread of its own where one can be started.
fn search_all<R: Threads + Sync>(
    rt: &R,
    alloc: Global,
    curves: &Curves,
    start: &Prices,
    mu: Mu,
    rounds: u32,
    slots: &mut [Slot],
)
    requires assets { length start.now ≡ curves.now.assets }
    requires some { 1 ≤ length slots.old }
    requires few { length slots.old ≤ 8 }
    ensures one_each { length slots.new ≡ length slots.old }
    ensures found { AreFound curves.now.quotes start.now mu rounds 0 slots.new }
{
    let count = slots.len();
    for_each_mut(
        rt,
        slots,
        count,
        &|number: usize, slot: &mut Slot|
            requires { (number < 8) × (length start.now ≡ curves.now.assets) }
            ensures { IsFound curves.entry.now.quotes start.entry.now mu rounds number slot.exit.now }
        {
            let first = first_exponent(number);
            *slot = Some(search_from(rt, alloc, curves, start, mu, rounds, first));
        },
    );
}

// The ends of so many searches, by their numbers.
pub(crate) fn search_each<R: Threads + Sync>(
    rt: &R,
    alloc: Global,
    curves: &Curves,
    start: &Prices,
    mu: Mu,
    rounds: u32,
    searches: u32,
) -> Result<Vec<Slot>, NoMemory>
    requires assets { length start.now ≡ curves.now.assets }
    requires some { 1 ≤ searches }
    requires few { searches ≤ 8 }
    ensures one_each { IfOk result (λ slots. vec_len slots ≡ searches) }
    ensures found { IfOk result (λ slots. AreFound curves.now.quotes start.now mu rounds 0 slots.items) }
{
    let mut slots = empty_slots(alloc, searches)?;
    search_all(rt, alloc, curves, start, mu, rounds, &mut slots);
    Ok(slots)
}
