//! A state of more than 1 MiB, whose digest is made on a thread of its own while it is decoded.

use crate::counting::run;
use crate::streams::{sink_of, source_of, words_of};
use std::alloc::Global;
use std::thread::Threads;
use sx_bytes::{NoMemory, Writer};
use sx_run::{Status, status_line};

const ACCOUNTS: u32 = 50_000;

// Appends the record of a state at height 7, of one asset at the price 1, whose accounts have one unit
// each: its payload has 24 bytes for each account and 34 bytes beside.
fn put_state(to: &mut Writer) -> Result<(), NoMemory> {
    to.put_u8(1)?;
    to.put_u32(24 * ACCOUNTS + 34)?;
    to.put_u8(1)?;
    to.put_u64(7)?;
    to.put_u8(1)?;
    to.put_u64(1 << 24)?;
    to.put_u64(0)?;
    to.put_u32(ACCOUNTS)?;
    for id in 0..ACCOUNTS {
        to.put_u64(u64::from(id))?;
        to.put_u64(0)?;
        to.put_u64(1)?;
    }
    to.put_u32(0)
}

// Appends the record of a block of height 8, whose three digests are all of zeros.
fn put_block(to: &mut Writer) -> Result<(), NoMemory> {
    let digest = [0; 32];
    to.put_u8(3)?;
    to.put_u32(134)?;
    to.put_u8(1)?;
    to.put_u64(8)?;
    to.raw(&digest)?;
    to.raw(&digest)?;
    to.put_u8(10)?;
    to.put_u8(1)?;
    to.put_u64(1 << 24)?;
    to.put_u16(0)?;
    to.put_u8(0)?;
    to.put_u32(0)?;
    to.put_u64(0)?;
    to.raw(&digest)?;
    to.put_u32(0)
}

fn input(alloc: Global) -> Result<Writer, NoMemory> {
    let mut to = Writer::new(alloc);
    put_state(&mut to)?;
    put_block(&mut to)?;
    Ok(to)
}

// How a replay ends, and how much it writes.
fn replayed<R: Threads + Sync>(rt: &R, alloc: Global) -> Option<(Status, usize)> {
    let words = words_of(alloc, &["replay"])?;
    let bytes = Vec::from_slice(alloc, input(alloc).ok()?.bytes()).ok()?;
    let mut source = source_of(alloc, bytes, 100_000, &[])?;
    let mut sink = sink_of(alloc, 0, 1, &[])?;
    let status = run(rt, alloc, &words, &mut source, &mut sink);
    Some((status, sink.written().len()))
}

// The line that tells the digest which the state really has, as another SHA-256 computes it.
const LINE: &str = "refused block 0: 3 WrongParent \
    said 0000000000000000000000000000000000000000000000000000000000000000 \
    real 555c060a8431e8e2b3c47f58ee4f5010fa542c3c8e23d5f4ff9420348bc9f1b0\n";

// Whether a replay ends with that line, and nothing is written.
fn tells_digest<R: Threads + Sync>(rt: &R, alloc: Global) -> Option<bool> {
    let (status, written) = replayed(rt, alloc)?;
    let line = status_line(alloc, &status).ok()?;
    Some(written == 0 && line.bytes() == LINE.as_bytes())
}

#[test]
fn the_digest_of_a_long_state(rt: HostRuntime) {
    assert_eq!(rt; tells_digest(&rt, rt.alloc()), Some(true));
}
