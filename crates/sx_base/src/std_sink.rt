//! A sink over `std::io`.

ghost use Rattle.std.specs.Prelude.{◌≡◌, ◌<◌, ◌≤◌, None, true, length, take, IfOk, OnOk, OnErr};
ghost use Rattle.std.specs.Io.KnownBytes.{WriteAppends};
ghost use Rattle.sx_base.specs.Memory.{one_more};
ghost use Rattle.sx_base.specs.Outside.{Rose, Appends};
ghost use Rattle.sx_base.specs.Standard.{writer_of, failed_puts};

use crate::{Failed, Sink};
use std::io::Write;

/// A sink over a `std::io::Write`, as standard output. It does not tell which bytes it got, and is
/// strict.
///
/// Each error of the writer counts as a fault, also one that says that the call was interrupted,
/// and so does a write of nothing where there was something to write.
#[derive(Debug, Drop)]
pub struct StdSink<W> {
    inner: W,
    faults: u64,
}

impl<W: Write> StdSink<W> {
    /// A sink that writes to `inner`, with no fault yet.
    pub fn new(inner: W) -> Self
        ensures writer { writer_of result ≡ inner }
        ensures faults { failed_puts result ≡ 0 }
    {
        StdSink { inner, faults: 0 }
    }

    /// How many puts have failed, up to `2^64 - 1`.
    pub fn faults(&self) -> u64
        ensures { result ≡ failed_puts self.now }
    {
        self.faults
    }
}

impl<W: Write> Sink for StdSink<W> {
    ghost written = { λ _. None };

    ghost faults = { λ s. s.faults };

    ghost strict = { λ _. true };

    /// Writes once, and answers what the writer does, but fails where it wrote nothing of
    /// something.
    fn put(&mut self, bytes: &[u8]) -> Result<usize, Failed>
        ensures within { IfOk result (λ n. n ≤ length bytes.now) }
        ensures some { IfOk result (λ n. 0 < length bytes.now → 0 < n) }
        ensures appended { IfOk result (λ n. Appends None None (take n bytes.now)) }
        ensures steady { OnOk result (failed_puts self.new ≡ failed_puts self.old) }
        ensures falls_never { failed_puts self.old ≤ failed_puts self.new }
        ensures failed { OnErr result (Rose (failed_puts self.old) (failed_puts self.new)) }

        ensures raised { OnErr result (failed_puts self.new ≡ one_more (failed_puts self.old)) }
        // Where std says which bytes the writer holds, the call appended these.
        ensures wrote { WriteAppends (W.contents (writer_of self.old)) (W.contents (writer_of self.new))
            result bytes.now }
    {
        match self.inner.write(bytes) {
            Ok(n) if n > 0 || bytes.is_empty() => Ok(n),
            _ => {
                self.faults = self.faults.saturating_add(1);
                Err(Failed)
            }
        }
    }
}
