//! A source over `std::io`.

ghost use Rattle.std.specs.Prelude.{◌≡◌, ◌≤◌, None, true, length, IfOk, OnOk, OnErr};
ghost use Rattle.std.specs.Io.KnownBytes.{ReadConsumes};
ghost use Rattle.sx_base.specs.Memory.{one_more};
ghost use Rattle.sx_base.specs.Outside.{Rose, TakesPrefix};
ghost use Rattle.sx_base.specs.Standard.{reader_of, failed_takes};

use crate::{Failed, Source};
use std::io::Read;

/// A source over a `std::io::Read`, as standard input. It does not tell which bytes are left, and is
/// strict.
///
/// Each error of the reader counts as a fault, also one that says that the call was interrupted.
#[derive(Debug, Drop)]
pub struct StdSource<R> {
    inner: R,
    faults: u64,
}

impl<R: Read> StdSource<R> {
    /// A source that reads from `inner`, with no fault yet.
    pub fn new(inner: R) -> Self
        ensures reader { reader_of result ≡ inner }
        ensures faults { failed_takes result ≡ 0 }
    {
        StdSource { inner, faults: 0 }
    }

    /// How many takes have failed, up to `2^64 - 1`.
    pub fn faults(&self) -> u64
        ensures { result ≡ failed_takes self.now }
    {
        self.faults
    }
}

impl<R: Read> Source for StdSource<R> {
    ghost left = { λ _. None };

    ghost faults = { λ s. s.faults };

    ghost strict = { λ _. true };

    /// Reads once, and answers what the reader does.
    fn take(&mut self, into: &mut [u8]) -> Result<usize, Failed>
        ensures within { IfOk result (λ n. n ≤ length into.old) }
        ensures taken { IfOk result (λ n. TakesPrefix None None n into.old into.new) }
        ensures steady { OnOk result (failed_takes self.new ≡ failed_takes self.old) }
        ensures falls_never { failed_takes self.old ≤ failed_takes self.new }
        ensures failed { OnErr result (Rose (failed_takes self.old) (failed_takes self.new)) }

        ensures raised { OnErr result (failed_takes self.new ≡ one_more (failed_takes self.old)) }
        // Where std says which bytes the reader has, the call took its next ones.
        ensures read { ReadConsumes (R.remaining (reader_of self.old)) (R.remaining (reader_of self.new))
            result into.new }
    {
        match self.inner.read(into) {
            Ok(count) => Ok(count),
            Err(_) => {
                self.faults = self.faults.saturating_add(1);
                Err(Failed)
            }
        }
    }
}
