//! Calls that go on until a whole slice is filled or written.

ghost use Rattle.std.specs.Prelude.{◌≡◌, ◌<◌, ◌≤◌, length, OnOk, OnErr, IsTrue};
ghost use Rattle.sx_base.specs.Outside.{Rose, Appends, AppendsPrefix};
ghost use Rattle.sx_base.specs.Exact.{IsFilled, EndsEarly, OnFailed, IfEnded};

use crate::{Failed, Sink, Source};
use thiserror::Error;

/// Why [`take_exact`] did not fill its slice.
#[derive(Clone, Copy, Debug, PartialEq, Eq, Error)]
pub enum TakeFault {
    /// A take failed, and the source's count of faults has risen.
    #[error("the source failed")]
    Failed,
    /// The input ended after `got` bytes, fewer than the slice takes.
    #[error("the input ended after {got} bytes")]
    Ended {
        /// How many bytes came, which are the first of the slice now.
        got: usize,
    },
}

/// Fills `into` to its end with the next bytes.
///
/// `TakeFault::Ended` comes exactly where the input ends before that. `TakeFault::Failed` comes
/// only where the count of faults rose in the call; then a part of `into` may be written over, and
/// the source may have been read further. At the other answers the count of a strict source does
/// not change.
pub fn take_exact<S: Source>(source: &mut S, into: &mut [u8]) -> Result<(), TakeFault>
    ensures taken { OnOk result (IsFilled (S.left source.old) (S.left source.new) into.old into.new) }
    ensures steady { OnOk result (IsTrue (S.strict source.old) → S.faults source.new ≡ S.faults source.old) }

    ensures ended { IfEnded result (λ got.
        EndsEarly (S.left source.old) (S.left source.new) got into.old into.new) }
    ensures ended_early { IfEnded result (λ got. got < length into.old) }
    ensures ended_steady { IfEnded result (λ _.
        IsTrue (S.strict source.old) → S.faults source.new ≡ S.faults source.old) }

    ensures failed { OnFailed result (Rose (S.faults source.old) (S.faults source.new)) }
    ensures falls_never { S.faults source.old ≤ S.faults source.new }
    ensures kept { S.strict source.new ≡ S.strict source.old }
{
    let mut got = 0;
    while got < into.len() {
        let Ok(n) = source.take(&mut into[got..]) else {
            return Err(TakeFault::Failed);
        };
        if n == 0 {
            return Err(TakeFault::Ended { got });
        }
        got += n;
    }
    Ok(())
}

/// Appends all of `bytes`.
///
/// `Failed` comes only where the count of faults rose in the call. A prefix of `bytes` is written
/// then. At Ok the count of a strict sink does not change.
pub fn put_all<K: Sink>(sink: &mut K, bytes: &[u8]) -> Result<(), Failed>
    ensures appended { OnOk result (Appends (K.written sink.old) (K.written sink.new) bytes.now) }
    ensures steady { OnOk result (IsTrue (K.strict sink.old) → K.faults sink.new ≡ K.faults sink.old) }

    ensures failed { OnErr result (Rose (K.faults sink.old) (K.faults sink.new)) }
    ensures prefix { OnErr result
        (AppendsPrefix (K.written sink.old) (K.written sink.new) bytes.now) }
    ensures falls_never { K.faults sink.old ≤ K.faults sink.new }
    ensures kept { K.strict sink.new ≡ K.strict sink.old }
{
    let mut done = 0;
    while done < bytes.len() {
        done += sink.put(&bytes[done..])?;
    }
    Ok(())
}
