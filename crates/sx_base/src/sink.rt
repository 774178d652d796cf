//! Where bytes go.

ghost use Rattle.std.specs.Prelude.{◌≡◌, ◌<◌, ◌≤◌, ℕ, Bool, List, Option, length, take, IfOk, OnOk, OnErr, IsTrue};
ghost use Rattle.sx_base.specs.Outside.{Rose, Appends};

use crate::Failed;

/// Where bytes go.
pub trait Sink {
    /// The bytes written so far, where the sink tells them.
    ghost written: { Self → Option (List ℕ) };

    /// How many faults there were, up to `2^64 - 1`. It never falls.
    ghost faults: { Self → ℕ };

    /// Whether the count rises at failed puts alone. A sink that counts an interruption which it
    /// then overcame is not strict.
    ghost strict: { Self → Bool };

    /// Appends a prefix of `bytes`, and answers its length: at least 1 where `bytes` isn't empty.
    ///
    /// `Failed` comes only where the count of faults rose in the call, and nothing is appended
    /// then.
    fn put(&mut self, bytes: &[u8]) -> Result<usize, Failed>
        ensures within { IfOk result (λ n. n ≤ length bytes.now) }
        ensures some { IfOk result (λ n. 0 < length bytes.now → 0 < n) }
        ensures appended { IfOk result (λ n.
            Appends (written self.old) (written self.new) (take n bytes.now)) }
        ensures steady { OnOk result (IsTrue (strict self.old) → faults self.new ≡ faults self.old) }
        ensures kept { strict self.new ≡ strict self.old }
        ensures falls_never { faults self.old ≤ faults self.new }
        ensures failed { OnErr result (Rose (faults self.old) (faults self.new)) }
        ensures unwritten { OnErr result (written self.new ≡ written self.old) };
}
