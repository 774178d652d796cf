//! A call at each place of a list.

ghost use Rattle.std.specs.Prelude.{◌+◌, ◌^◌, ◌<◌, ◌≤◌, length};
ghost use Rattle.std.specs.Thread.{IsSend, IsSync};
ghost use Rattle.std.specs.Fork.{AcceptsAt, AcceptsEach, ChangesAt, ChangesEach};
ghost use Rattle.sx_fork.specs.Each.{AcceptsFrom, ChangesFrom};

use crate::forking::fork_mut;
use std::marker::{Send, Sync};
use std::thread::Threads;

fn call_at<T, F: Fn(usize, &mut T)>(f: &F, place: usize, element: &mut T)
    requires { AcceptsAt F.Fn f.now place element.old }
    ensures { ChangesAt F.Fn f.now place element.old element.new }
{
    f(place, element);
}

// Calls `f` at each place of a part of a list, which begins at place `base` of the list, in this thread.
fn in_turn<T, F: Fn(usize, &mut T)>(base: usize, f: &F, part: &mut [T])
    requires room { base + length part.old < 2 ^ 64 }
    requires accepts { AcceptsFrom F.Fn f.now base part.old }
    ensures { ChangesFrom F.Fn f.now base part.old part.new }
{
    for k in 0..part.len() {
        call_at(f, base + k, &mut part[k]);
    }
}

// The same of two parts: of the first in a thread of its own, and of the other one, which begins at place `up`, by so
// many more.
#[cycle(parts)]
fn two_parts<R: Threads + Sync, T: Send, F: Fn(usize, &mut T) + Sync>(
    rt: &R,
    others: usize,
    f: &F,
    base: usize,
    front: &mut [T],
    up: usize,
    back: &mut [T],
)
    requires some { 1 ≤ others }
    requires room { base + length front.old < 2 ^ 64 }
    requires more_room { up + length back.old < 2 ^ 64 }
    requires accepts { AcceptsFrom F.Fn f.now base front.old }
    requires accepts_more { AcceptsFrom F.Fn f.now up back.old }
    ensures front { ChangesFrom F.Fn f.now base front.old front.new }
    ensures back { ChangesFrom F.Fn f.now up back.old back.new }
{
    let last = others < 2;
    fork_mut(
        rt,
        last,
        &mut || -> ()
            requires { IsSync F.row × IsSend T.row × (base + length front.now < 2 ^ 64) × AcceptsFrom F.Fn f.now base front.now }
            ensures { ChangesFrom F.Fn f.entry.now base front.entry.now front.exit.now }
        { in_turn(base, f, front) },
        &mut || -> ()
            requires { IsSync R.row × IsSync F.row × IsSend T.row × (1 ≤ others) × (up + length back.now < 2 ^ 64) × AcceptsFrom F.Fn f.now up back.now }
            ensures { ChangesFrom F.Fn f.entry.now up back.entry.now back.exit.now }
        { by_parts(rt, others, f, up, back) },
    );
}

// The same by so many threads, of which each takes about equally many places.
#[cycle(parts)]
fn by_parts<R: Threads + Sync, T: Send, F: Fn(usize, &mut T) + Sync>(
    rt: &R,
    threads: usize,
    f: &F,
    base: usize,
    part: &mut [T],
)
    requires some { 1 ≤ threads }
    requires room { base + length part.old < 2 ^ 64 }
    requires accepts { AcceptsFrom F.Fn f.now base part.old }
    ensures { ChangesFrom F.Fn f.now base part.old part.new }
{
    if threads < 2 || part.len() < 2 {
        return in_turn(base, f, part);
    }
    let share = part.len().div_ceil(threads);
    let (front, back) = part.split_at_mut(share);
    two_parts(rt, threads - 1, f, base, front, base + share, back);
}

/// Calls `f(place, &mut list[place])` at each place of a list, in at most so many threads. Each of them takes places that
/// stand together, about as many as the others, and calls one after the other. Of fewer than two places, or with one
/// thread, this thread makes all calls.
pub fn for_each_mut<R: Threads + Sync, T: Send, F: Fn(usize, &mut T) + Sync>(
    rt: &R,
    list: &mut [T],
    threads: usize,
    f: &F,
)
    requires threads { 1 ≤ threads }
    requires accepts { AcceptsEach F.Fn f.now list.old }
    ensures { ChangesEach F.Fn f.now list.old list.new }
{
    by_parts(rt, threads, f, 0, list);
}
