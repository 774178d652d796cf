//! Whole calls over a source and a sink in memory, and one row for each that adapts `std::io`.

use std::alloc::{AllocError, Global};
use std::io;
use std::io::{ErrorKind, Read, Write};
use sx_base::*;

// Whether four bytes come out of a source, then one and its end, and whether the next call fails.
fn gives_lemon(source: &mut MemSource) -> bool {
    let mut into = [0; 4];
    let first = take_exact(source, &mut into) == Ok(());
    let filled = into.as_slice() == b"lemo".as_slice();
    let ended = take_exact(source, &mut into) == Err(TakeFault::Ended { got: 1 });
    let failed = take_exact(source, &mut into) == Err(TakeFault::Failed);
    first && filled && ended && failed
}

#[test]
fn a_slice_is_filled_in_pieces(rt: HostRuntime) -> Result<(), AllocError> {
    let alloc = rt.alloc();
    // Two bytes a call, and the call after four fails.
    let mut source = MemSource::new(b"lemon".to_vec(alloc)?, 2, [4].to_vec(alloc)?);
    assert!(rt; gives_lemon(&mut source) && source.faults() == 1);
    Ok(())
}

// Whether a sink takes three bytes, and then two of three.
fn takes_lemon(sink: &mut MemSink) -> bool {
    let first = put_all(sink, b"lem") == Ok(());
    let failed = put_all(sink, b"ons") == Err(Failed);
    first && failed && sink.written() == b"lemon".as_slice()
}

#[test]
fn bytes_are_written_in_pieces(rt: HostRuntime) -> Result<(), AllocError> {
    let alloc = rt.alloc();
    // Two bytes a call, and room for five.
    let mut sink = MemSink::new([0; 5].to_vec(alloc)?, 2, Vec::new(alloc));
    assert!(rt; takes_lemon(&mut sink) && sink.faults() == 1);
    Ok(())
}

// A source that is interrupted at each take, and counts and overcomes that.
#[derive(Drop)]
struct Overcoming {
    faults: u64,
}

impl Source for Overcoming {
    ghost use Rattle.std.specs.Prelude.{None, false};

    ghost left = { λ _. None };

    ghost faults = { λ s. s.faults };

    ghost strict = { λ _. false };

    fn take(&mut self, into: &mut [u8]) -> Result<usize, Failed> {
        self.faults = self.faults.saturating_add(1);
        Ok(into.len())
    }
}

#[test]
fn an_interruption_may_be_overcome(rt: HostRuntime) {
    let mut source = Overcoming { faults: 0 };
    let mut into = [0; 4];
    assert!(rt; take_exact(&mut source, &mut into) == Ok(()));
    assert!(rt; source.faults == 1);
}

// Fails at each call.
#[derive(Drop)]
struct Broken;

impl Read for Broken {
    fn read(&mut self, _into: &mut [u8]) -> io::Result<usize> {
        Err(io::Error::from(ErrorKind::Interrupted))
    }
}

// Writes nothing, and answers that.
#[derive(Drop)]
struct Full;

impl Write for Full {
    fn write(&mut self, _bytes: &[u8]) -> io::Result<usize> {
        Ok(0)
    }

    fn flush(&mut self) -> io::Result<()> {
        Ok(())
    }
}

// Whether three bytes are read, and then two and the end.
fn is_read() -> bool {
    let mut source = StdSource::new(b"lemon".as_slice());
    let mut into = [0; 3];
    let first = take_exact(&mut source, &mut into) == Ok(());
    let filled = into.as_slice() == b"lem".as_slice();
    let ended = take_exact(&mut source, &mut into) == Err(TakeFault::Ended { got: 2 });
    first && filled && ended
}

// Whether a reader that fails makes a fault.
fn is_failed() -> bool {
    let mut broken = StdSource::new(Broken);
    let mut into = [0; 3];
    let failed = take_exact(&mut broken, &mut into) == Err(TakeFault::Failed);
    failed && broken.faults() == 1
}

#[test]
fn std_readers_are_sources(rt: HostRuntime) {
    assert!(rt; is_read());
    assert!(rt; is_failed());
}

// Whether bytes are written.
fn is_written(alloc: Global) -> bool {
    let mut text = Vec::new(alloc);
    let put = put_all(&mut StdSink::new(&mut text), b"lemon") == Ok(());
    put && text.as_slice() == b"lemon".as_slice()
}

// Whether a writer that takes nothing makes a fault.
fn is_full() -> bool {
    let mut full = StdSink::new(Full);
    let failed = put_all(&mut full, b"lemon") == Err(Failed);
    failed && full.faults() == 1
}

#[test]
fn std_writers_are_sinks(rt: HostRuntime) {
    assert!(rt; is_written(rt.alloc()));
    assert!(rt; is_full());
}
