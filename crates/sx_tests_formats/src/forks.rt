//! Work that is split among threads, and what comes of it.

use std::alloc::Global;
use std::thread::Threads;
use sx_fork::*;

// The results of two calls, and what two calls leave.
fn forked<R: Threads>(rt: &R, apart: bool) -> [u32; 4] {
    let (first, second) = fork(rt, apart, || -> u32 { 3 }, || -> u32 { 4 });
    let mut one = 5u32;
    let mut other = 6u32;
    fork_mut(rt, apart, &mut || one = 7, &mut || other = 8);
    [first, second, one, other]
}

#[test]
fn two_calls_give_their_own_results(rt: HostRuntime) {
    assert!(rt; forked(&rt, false) == [3, 4, 7, 8]);
    assert!(rt; forked(&rt, true) == [3, 4, 7, 8]);
}

// Five places, each with its own number, by so many threads.
fn places<R: Threads + Sync>(rt: &R, threads: usize) -> [usize; 5] {
    let mut places = [9usize; 5];
    for_each_mut(
        rt,
        &mut places,
        threads.max(1),
        &|place: usize, slot: &mut usize| {
            *slot = place;
        },
    );
    places
}

// The numbers below this one, each the result of a call.
fn numbers<R: Threads + Sync>(rt: &R, alloc: Global, count: usize) -> Option<Vec<usize>> {
    map_indices(rt, alloc, count, &|number: usize| -> usize { number }).ok()
}

fn has_numbers<R: Threads + Sync>(rt: &R, alloc: Global, wanted: &[usize]) -> bool {
    match numbers(rt, alloc, wanted.len()) {
        Some(found) => found.as_slice() == wanted,
        None => false,
    }
}

#[test]
fn each_place_and_each_number_is_called(rt: HostRuntime) {
    for threads in [1, 2, 3, 9] {
        assert!(rt; places(&rt, threads) == [0, 1, 2, 3, 4]);
    }
    assert!(rt; has_numbers(&rt, rt.alloc(), &[0, 1, 2]));
    assert!(rt; has_numbers(&rt, rt.alloc(), &[]));
}
