//! Four threads on one purse and on one word of bits.

ghost use Rattle.std.specs.Prelude.{◌≡◌, ◌<◌, length};
ghost use Rattle.std.specs.Thread.{IsSync};
ghost use Rattle.sx_shard.specs.Models.{IsOf};

use std::alloc::Global;
use std::test::Fail;
use std::thread::{Threads, join};
use sx_bytes::NoMemory;
use sx_shard::*;

// What one thread got: its seat, how often it took 4 units of purse 0, and how many bits of word 0.
type Got = (ShardSeat, u32, u32);

// Takes 4 units, and 1 bit, 16 times each.
fn work(shard: &Shard, mut seat: ShardSeat) -> Got
    requires words { (0 < length shard.now.purses) × (0 < length shard.now.bits) }
    requires of { IsOf shard.now seat }
    ensures of { IsOf shard.now result.0 }
    ensures range { (result.0.view.from ≡ seat.view.from) × (result.0.view.end ≡ seat.view.end) }
{
    let mut taken = 0u32;
    let mut bits = 0u32;
    for bit in 0..16 {
        if shard.reserve(&mut seat, 0, 4).is_ok() {
            taken = taken.wrapping_add(1);
        }
        if shard.claim(&mut seat, 0, bit).is_ok() {
            bits = bits.wrapping_add(1);
        }
    }
    (seat, taken, bits)
}

// The same by two threads, whose ranges meet.
fn work_by_two<R: Threads + Sync>(rt: &R, shard: &Shard, mut left: ShardSeat, at: u32) -> Got
    requires words { (0 < length shard.now.purses) × (0 < length shard.now.bits) }
    requires of { IsOf shard.now left }
    requires at { (left.view.from < at) × (at < left.view.end) }
    ensures of { IsOf shard.now result.0 }
    ensures range { (result.0.view.from ≡ left.view.from) × (result.0.view.end ≡ left.view.end) }
{
    let right = shard.split(&mut left, at);
    let (one, other) = join(
        rt,
        move || -> Got
            requires { (0 < length shard.now.purses) × (0 < length shard.now.bits) × IsOf shard.now left }
            ensures { IsOf shard.entry.now result.0 × (result.0.view.from ≡ left.view.from) × (result.0.view.end ≡ left.view.end) }
        { work(shard, left) },
        move || -> Got
            requires { (0 < length shard.now.purses) × (0 < length shard.now.bits) × IsOf shard.now right }
            ensures { IsOf shard.entry.now result.0 × (result.0.view.from ≡ right.view.from) × (result.0.view.end ≡ right.view.end) }
        { work(shard, right) },
    );
    let (mut seat, taken, bits) = one;
    let (next, more_taken, more_bits) = other;
    shard.join(&mut seat, next);
    (
        seat,
        taken.wrapping_add(more_taken),
        bits.wrapping_add(more_bits),
    )
}

// The same by four threads, at a shard with this seat for four candidates.
fn work_by_four<R: Threads + Sync>(rt: &R, shard: &Shard, mut left: ShardSeat) -> Got
    requires words { (0 < length shard.now.purses) × (0 < length shard.now.bits) }
    requires of { IsOf shard.now left }
    requires range { (left.view.from ≡ 0) × (left.view.end ≡ 4) }
    ensures of { IsOf shard.now result.0 }
    ensures range { (result.0.view.from ≡ 0) × (result.0.view.end ≡ 4) }
{
    let right = shard.split(&mut left, 2);
    let (one, other) = join(
        rt,
        move || -> Got
            requires { (0 < length shard.now.purses) × (0 < length shard.now.bits) × IsOf shard.now left × (left.view.from ≡ 0) × (left.view.end ≡ 2) × IsSync R.row }
            ensures { IsOf shard.entry.now result.0 × (result.0.view.from ≡ 0) × (result.0.view.end ≡ 2) }
        { work_by_two(rt, shard, left, 1) },
        move || -> Got
            requires { (0 < length shard.now.purses) × (0 < length shard.now.bits) × IsOf shard.now right × (right.view.from ≡ 2) × (right.view.end ≡ 4) × IsSync R.row }
            ensures { IsOf shard.entry.now result.0 × (result.0.view.from ≡ 2) × (result.0.view.end ≡ 4) }
        { work_by_two(rt, shard, right, 3) },
    );
    let (mut seat, taken, bits) = one;
    let (next, more_taken, more_bits) = other;
    shard.join(&mut seat, next);
    (
        seat,
        taken.wrapping_add(more_taken),
        bits.wrapping_add(more_bits),
    )
}

// The words at the end, and what was got.
fn share<R: Threads + Sync>(rt: &R, alloc: Global) -> Result<(Closed, u32, u32), NoMemory> {
    let (shard, seat) = Shard::start(alloc, &[42], &[1], 4)?;
    let (seat, taken, bits) = work_by_four(rt, &shard, seat);
    let closed = shard.close(seat)?;
    Ok((closed, taken, bits))
}

// A purse of 42 gives 4 units ten times. Bit 0 is set before, and each of the others is got once.
#[test]
fn four_threads_share_a_purse_and_a_word(rt: HostRuntime) -> Result<(), Fail> {
    for _ in 0..1000 {
        let (closed, taken, bits) = share(&rt, rt.alloc())?;
        assert_eq!(rt; (taken, bits), (10, 15));
        assert_eq!(rt; closed.purses.items(), [2].as_slice());
        assert_eq!(rt; closed.bits.items(), [0xffff].as_slice());
    }
    Ok(())
}
