//! Where bytes come from.

ghost use Rattle.std.specs.Prelude.{◌≡◌, ◌≤◌, ℕ, Bool, List, Option, length, IfOk, OnOk, OnErr, IsTrue};
ghost use Rattle.sx_base.specs.Outside.{Rose, TakesPrefix};

use crate::Failed;

/// Where bytes come from.
pub trait Source {
    /// The bytes that are left, where the source tells them.
    ghost left: { Self → Option (List ℕ) };

    /// How many faults there were, up to `2^64 - 1`. It never falls.
    ghost faults: { Self → ℕ };

    /// Whether the count rises at failed takes alone. A source that counts an interruption which it
    /// then overcame is not strict.
    ghost strict: { Self → Bool };

    /// Fills a prefix of `into` with the next bytes, and answers its length.
    ///
    /// At a slice that isn't empty, 0 is the end of the input. The rest of `into` does not change.
    /// `Failed` comes only where the count of faults rose in the call; what it leaves in `into`,
    /// and how far it read, is left open.
    fn take(&mut self, into: &mut [u8]) -> Result<usize, Failed>
        ensures within { IfOk result (λ n. n ≤ length into.old) }
        ensures taken { IfOk result (λ n.
            TakesPrefix (left self.old) (left self.new) n into.old into.new) }
        ensures steady { OnOk result (IsTrue (strict self.old) → faults self.new ≡ faults self.old) }
        ensures kept { strict self.new ≡ strict self.old }
        ensures falls_never { faults self.old ≤ faults self.new }
        ensures failed { OnErr result (Rose (faults self.old) (faults self.new)) };
}
