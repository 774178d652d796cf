//! A source and a sink that overcome interruptions, and count each as a fault.

ghost use Rattle.std.specs.Prelude.{Some, false};

use std::alloc::{AllocError, Global};
use sx_base::{Failed, MemSink, MemSource, Sink, Source};

// Each take is interrupted once before it gives bytes.
#[derive(Debug, Drop)]
pub struct RecoveringSource {
    bytes: MemSource,
    faults: u64,
}

impl RecoveringSource {
    pub fn new(bytes: MemSource) -> Self {
        RecoveringSource { bytes, faults: 0 }
    }

    pub fn faults(&self) -> u64 {
        self.faults
    }
}

impl Source for RecoveringSource {
    ghost left = { λ s. Some s.bytes.left };

    ghost faults = { λ s. s.faults };

    ghost strict = { λ _. false };

    fn take(&mut self, into: &mut [u8]) -> Result<usize, Failed> {
        self.faults = self.faults.saturating_add(1);
        self.bytes.take(into)
    }
}

// Each put is interrupted once before it takes bytes.
#[derive(Debug, Drop)]
pub struct RecoveringSink {
    bytes: MemSink,
    faults: u64,
}

impl RecoveringSink {
    pub fn new(bytes: MemSink) -> Self {
        RecoveringSink { bytes, faults: 0 }
    }

    pub fn faults(&self) -> u64 {
        self.faults
    }

    pub fn written(&self) -> &[u8] {
        self.bytes.written()
    }
}

impl Sink for RecoveringSink {
    ghost written = { λ s. Some s.bytes.written };

    ghost faults = { λ s. s.faults };

    ghost strict = { λ _. false };

    fn put(&mut self, bytes: &[u8]) -> Result<usize, Failed> {
        self.faults = self.faults.saturating_add(1);
        self.bytes.put(bytes)
    }
}
