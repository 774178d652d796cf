//! Whether states have the digests that are named, by several threads. It takes no memory.

ghost use Rattle.std.specs.Prelude.{◌≡◌, ◌*◌, ◌≤◌, true, length, take};
ghost use Rattle.std.specs.List.{All};
ghost use Rattle.std.specs.Thread.{IsSync};
ghost use Rattle.sx_follow.specs.Ahead.{IsRight};

use crate::ahead::batch::Claim;
use std::thread::Threads;
use sx_digests::record_digest;
use sx_fork::fork;
use sx_record::tag;
use sx_state::LONGEST_STATE;

// Whether the state has the digest that is named. One that is longer than the state of any ledger has not.
fn is_right(claim: &Claim) -> bool
    ensures { result ≡ true → IsRight claim.now }
{
    let state = claim.state.bytes();
    state.len() <= LONGEST_STATE as usize && record_digest(tag::STATE, state) == claim.digest
}

// How many stand before the first whose state has another digest than is named.
fn right_in_turn(claims: &[Claim]) -> usize
    ensures within { result ≤ length claims.now }
    ensures right { All IsRight (take result claims.now) }
{
    let mut count = 0;
    while count < claims.len() {
        if !is_right(&claims[count]) {
            break;
        }
        count += 1;
    }
    count
}

// The same by so many threads, each of which hashes some of the states.
pub(crate) fn right_of<R: Threads + Sync>(rt: &R, claims: &[Claim], threads: usize) -> usize
    requires some { 1 ≤ threads }
    ensures within { result ≤ length claims.now }
    ensures right { All IsRight (take result claims.now) }
{
    if threads < 2 {
        return right_in_turn(claims);
    }
    let others = threads - 1;
    let (front, back) = claims.split_at(claims.len() / threads);
    let (one, other) = fork(
        rt,
        others < 2,
        || -> usize
            ensures within { result ≤ length front.entry.now }
            ensures right { All IsRight (take result front.entry.now) }
        { right_in_turn(front) },
        || -> usize
            requires { IsSync R.row × (1 ≤ others) }
            ensures within { result ≤ length back.entry.now }
            ensures right { All IsRight (take result back.entry.now) }
        { right_of(rt, back, others) },
    );
    if one < front.len() {
        return one;
    }
    front.len() + other
}
