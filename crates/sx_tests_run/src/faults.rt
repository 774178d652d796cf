//! Each take and each put of every command but `seal`, made to fail.

use crate::counting::run;
use crate::markets::{payment_block, payment_state};
use crate::streams::{sink_of, source_of, words_of};
use std::alloc::Global;
use std::thread::Threads;
use sx_base::MemSink;
use sx_run::Status;

// The records of no candidate, and of a script of 3 actors with two turns.
#[rattlefmt::skip]
fn script() -> [u8; 21] {
    [
        2, 0, 0, 0, 4, 0, 0, 0, 0, 5, 0, 0, 0, 7, 3, 0, 0, 0, 2, 2, 0,
    ]
}

// The record of one candidate, the payment of the block.
#[rattlefmt::skip]
fn candidate() -> [u8; 43] {
    [
        2, 0, 0, 0, 38, 0, 0, 0, 1, 0, 0, 0, 0, 0, 0, 0, 1, 0, 0, 0, 0, 0, 0, 0, 1, 1, 0, 0, 0, 0, 0, 0,
        0, 2, 0, 0, 0, 0, 0, 0, 0, 0, 30,
    ]
}

// What a proof of account 1 has between the root and the other digests: version, assets, place, account.
#[rattlefmt::skip]
fn account() -> [u8; 30] {
    [
        1, 1, 0, 0, 0, 0, 0, 0, 0, 0, 0, 0, 0, 1, 0, 0, 0, 0, 0, 0, 0, 0, 0, 0, 0, 0, 0, 0, 0, 100,
    ]
}

// The record of a proof of it, whose root and other digests are 0.
fn proof(alloc: Global) -> Option<Vec<u8>> {
    let mut proof = Vec::from_slice(alloc, &[6, 0, 0, 2, 62]).ok()?;
    proof.extend_from_slice(&[0; 32]).ok()?;
    proof.extend_from_slice(&account()).ok()?;
    proof.extend_from_slice(&[0; 512]).ok()?;
    Some(proof)
}

// The records that the command reads: a proof, or a state and what comes after it.
fn input(alloc: Global, command: &str) -> Option<Vec<u8>> {
    if command == "verify" {
        return proof(alloc);
    }
    let mut input = Vec::from_slice(alloc, &payment_state()).ok()?;
    match command {
        "check" | "replay" | "follow" => input.extend_from_slice(&payment_block()).ok()?,
        "interleave" => input.extend_from_slice(&script()).ok()?,
        "filter" => input.extend_from_slice(&candidate()).ok()?,
        _ => {}
    }
    Some(input)
}

// The command, with the number that it needs.
fn words(alloc: Global, command: &str) -> Option<Vec<String>> {
    if command == "demo" || command == "prove" {
        words_of(alloc, &[command, "1"])
    } else {
        words_of(alloc, &[command])
    }
}

// How the command ends over a source and a sink that take and give pieces of 7 bytes and fail at these calls, and what
// it was written to.
fn ended<R: Threads + Sync>(
    rt: &R,
    alloc: Global,
    command: &str,
    source_fails: &[u32],
    sink_fails: &[u32],
) -> Option<(Status, MemSink)> {
    let words = words(alloc, command)?;
    let mut source = source_of(alloc, input(alloc, command)?, 7, source_fails)?;
    let mut sink = sink_of(alloc, 600, 7, sink_fails)?;
    let status = run(rt, alloc, &words, &mut source, &mut sink);
    Some((status, sink))
}

// Whether each of so many takes is a read fault with nothing written where it fails, and no other take is made.
fn takes_fail<R: Threads + Sync>(rt: &R, alloc: Global, command: &str, takes: u32) -> Option<bool> {
    for call in 0..takes {
        let (status, sink) = ended(rt, alloc, command, &[call], &[])?;
        if status != Status::ReadFault || !sink.written().is_empty() {
            return Some(false);
        }
    }
    let (status, _) = ended(rt, alloc, command, &[takes], &[])?;
    Some(status == Status::Done)
}

// Whether this is what so many puts of 7 bytes wrote, the first of all that is to be written. So many bytes of that are
// a piece of their own, so that the last put of these takes what is left of them.
fn is_written_by(puts: u32, first: u32, written: &[u8], whole: &[u8]) -> bool {
    let of_first = first.div_ceil(7).min(puts) as usize;
    let others = puts as usize - of_first;
    written.len() == (7 * of_first).min(first as usize) + 7 * others && whole.starts_with(written)
}

// Whether each of so many puts is a write fault where it fails, after what those before it wrote, and no other put is
// made.
fn puts_fail<R: Threads + Sync>(
    rt: &R,
    alloc: Global,
    command: &str,
    puts: u32,
    first: u32,
) -> Option<bool> {
    let (_, whole) = ended(rt, alloc, command, &[], &[])?;
    for call in 0..puts {
        let (status, sink) = ended(rt, alloc, command, &[], &[call])?;
        if status != Status::WriteFault
            || !is_written_by(call, first, sink.written(), whole.written())
        {
            return Some(false);
        }
    }
    let (status, sink) = ended(rt, alloc, command, &[], &[puts])?;
    Some(status == Status::Done && sink.written() == whole.written())
}

// A state has 87 bytes in 14 takes, a block 173 in 26, a candidate 43 in 8 and a proof 579 in 84; the take after them
// finds the end.
#[test]
fn each_take_and_each_put_may_fail(rt: HostRuntime) {
    for (command, takes, puts) in [
        ("check", 41, 5),
        ("replay", 41, 13),
        ("interleave", 21, 2),
        ("migrate", 15, 15),
        ("show", 15, 18),
        ("demo", 0, 26),
    ] {
        assert_eq!(rt; takes_fail(&rt, rt.alloc(), command, takes), Some(true));
        assert_eq!(rt; puts_fail(&rt, rt.alloc(), command, puts, 0), Some(true));
    }
}

// What a filter keeps is put behind the frame and the number of it, 9 bytes, which are a piece of their own.
#[test]
fn each_take_and_each_put_of_a_choice_a_proof_and_a_follower_may_fail(rt: HostRuntime) {
    for (command, takes, puts, first) in [
        ("filter", 23, 7, 9),
        ("prove", 15, 83, 0),
        ("verify", 85, 14, 0),
        ("follow", 41, 13, 0),
    ] {
        assert_eq!(rt; takes_fail(&rt, rt.alloc(), command, takes), Some(true));
        assert_eq!(rt;
            puts_fail(&rt, rt.alloc(), command, puts, first),
            Some(true)
        );
    }
}
