//! Words, and sources and sinks in memory.

ghost use Rattle.std.specs.Prelude.{◌≤◌};

use std::alloc::Global;
use sx_base::{MemSink, MemSource};

/// These words, as a command line has them.
pub fn words_of(alloc: Global, words: &[&str]) -> Option<Vec<String>> {
    let mut line = Vec::new(alloc);
    for word in words {
        line.push(String::from_str(alloc, *word).ok()?).ok()?;
    }
    Some(line)
}

/// These bytes in pieces of a size, from a source that fails at these calls.
pub fn source_of(alloc: Global, bytes: Vec<u8>, piece: usize, fails: &[u32]) -> Option<MemSource>
    requires { 1 ≤ piece }
{
    Some(MemSource::new(bytes, piece, Vec::from_slice(alloc, fails).ok()?))
}

/// A sink with room for this many bytes, in pieces of a size, that fails at these calls.
pub fn sink_of(alloc: Global, room: usize, piece: usize, fails: &[u32]) -> Option<MemSink>
    requires { 1 ≤ piece }
{
    let fails = Vec::from_slice(alloc, fails).ok()?;
    let room = vec![in alloc; 0; room].ok()?;
    Some(MemSink::new(room, piece, fails))
}
