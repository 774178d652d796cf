//! Replays of several blocks over a source in memory.

ghost use Rattle.std.specs.Prelude.{◌≤◌};

use crate::counting::run;
use crate::markets::{chain, chain_after};
use crate::streams::{sink_of, source_of, words_of};
use std::alloc::Global;
use std::thread::Threads;
use sx_price::{Price, value};
use sx_run::Status;

// How a replay of the chain in pieces of this many bytes ends, and whether the right state is written.
fn replayed<R: Threads + Sync>(rt: &R, alloc: Global, piece: usize) -> Option<(Status, bool)>
    requires { 1 ≤ piece }
{
    let words = words_of(alloc, &["replay"])?;
    let mut source = source_of(alloc, chain(alloc).ok()?, piece, &[])?;
    let mut sink = sink_of(alloc, 300, piece, &[])?;
    let status = run(rt, alloc, &words, &mut source, &mut sink);
    Some((status, sink.written() == chain_after().as_slice()))
}

#[test]
fn pieces_change_no_answer_of_a_chain(rt: HostRuntime) {
    for piece in [1usize, 7, 4096] {
        assert!(rt; piece >= 1);
        assert_eq!(rt;
            replayed(&rt, rt.alloc(), piece),
            Some((Status::Done, true))
        );
    }
}

// The value of the greatest amount at the greatest price.
fn greatest_value() -> Option<u128> {
    let price = Price::new(1 << 40).ok()?;
    Some(value(price, 1 << 62))
}

#[test]
fn the_greatest_amount_at_the_greatest_price(rt: HostRuntime) {
    assert_eq!(rt; greatest_value(), Some(1 << 102));
}
