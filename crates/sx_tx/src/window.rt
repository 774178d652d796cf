//! Which sequence numbers of an account may come next.

ghost use Rattle.std.specs.Prelude.{◌≡◌, ℕ, ◌+◌, ◌^◌, ◌<◌, ◌≤◌, ◌⊎◌, ◌↔◌, IsTrue, IfOk, IsOk, IsErrOf, IsBitSet, not};
ghost use Rattle.sx_base.specs.Ranges.{most_seq};
ghost use Rattle.sx_tx.specs.declared.window.WindowFault.TheVariants as fault;
ghost use Rattle.sx_tx.specs.Window.{open_numbers, number_of, is_map, is_marked, is_used, bit_length as length_in_bits, next_gapless, next_gapped, Next};

use sx_base::Seq;
use thiserror::Error;

/// What an account has used of its sequence numbers: all up to `last`, and of those above it each one
/// whose bit is set in `used`. Bit i stands for `last + 1 + i`:
///
/// ```text
/// last = 7, used = 0b110     7 | 8  9  10 | 11 ..
///                         used | -  x  x  | -
/// ```
///
/// In version 1 no bit is set, and the numbers that a block skipped are lost.
#[derive(Clone, Copy, Debug, PartialEq, Eq)]
pub struct Window {
    pub last: u64,
    pub used: u64,
}

/// Why a sequence number is not in the window.
#[derive(Clone, Copy, Debug, PartialEq, Eq, Error)]
pub enum WindowFault {
    /// 1: it is not above the last one.
    #[error("the sequence number is not above the last one")]
    Behind = 1,
    /// 2: it is more than 64 above the last one.
    #[error("the sequence number is more than 64 above the last one")]
    Beyond = 2,
    /// 3: it is among the 64 above the last one, and was used.
    #[error("the sequence number was used")]
    Used = 3,
}

impl WindowFault {
    /// The number of the fault.
    pub fn number(self) -> u8
        ensures { result ≡ number_of self }
    {
        self as u8
    }
}

// How many bits a map has up to its highest one that is set.
fn bit_length(map: u64) -> u64
    ensures length { result ≡ length_in_bits open_numbers map }
    ensures in_range { result ≤ open_numbers }
{
    u64::from(u64::BITS - map.leading_zeros())
}

impl Window {
    /// How many sequence numbers are open after the last one, which is the width of `used`.
    pub const OPEN: u64 = 64;

    /// Whether a ledger of this version may have the window's map. In version 1 no number is marked. In
    /// version 2 the one after the last is not, and the greatest that is marked is a sequence number.
    pub fn fits(&self, version: u8) -> bool
        requires { self.now.last ≤ most_seq }
        ensures { result ≡ is_map version self.now.last self.now.used }
    {
        if version == 1 {
            return self.used == 0;
        }
        self.used & 1 == 0 && self.last + bit_length(self.used) <= Seq::LAST
    }

    /// Whether the account used this sequence number.
    pub fn has_used(&self, seq: Seq) -> bool
        ensures { result ≡ is_used self.now seq }
    {
        let seq = seq.get();
        if seq <= self.last {
            return true;
        }
        let used = self.used;
        let place = seq - self.last - 1;
        place < Self::OPEN && (used >> place) & 1 == 1
    }

    /// The place of a sequence number in the window, from 0 to 63: the one after the last has
    /// place 0. `WindowFault` comes exactly where it is not in the window or was used.
    pub fn place(&self, seq: Seq) -> Result<u32, WindowFault>
        ensures place { IfOk result (λ place. self.now.last + 1 + place ≡ seq) }
        ensures inside { IsOk result ↔ ((self.now.last < seq) × (seq ≤ self.now.last + open_numbers)
            × IsTrue (not (is_marked self.now seq))) }
        ensures behind { IsErrOf result fault.Behind ↔ (seq ≤ self.now.last) }
        ensures beyond { IsErrOf result fault.Beyond ↔ (self.now.last + open_numbers < seq) }
        ensures used { IsErrOf result fault.Used ↔ ((self.now.last < seq) × (seq ≤ self.now.last + open_numbers)
            × IsTrue (is_marked self.now seq)) }
    {
        let seq = seq.get();
        if seq <= self.last {
            return Err(WindowFault::Behind);
        }
        let place = seq - self.last - 1;
        if place >= Self::OPEN {
            return Err(WindowFault::Beyond);
        }
        if (self.used >> place) & 1 == 1 {
            return Err(WindowFault::Used);
        }
        Ok(place as u32)
    }

    /// The window after a block in a ledger of this version, in which the account used the sequence
    /// numbers of `map`: bit i stands for `last + 1 + i`. In version 1 the last number is then the
    /// greatest one of the map. In version 2 the numbers that were skipped stay open:
    ///
    /// ```text
    /// last = 7, used = 0b110, map = 0b1     7 | 8  9  10 | 11 ..
    ///                                         | x  x  x  | -         last = 10, used = 0
    /// ```
    pub fn next(&self, version: u8, map: u64) -> Window
        requires version { (version ≡ 1) ⊎ (version ≡ 2) }
        // No number of the map is above the greatest sequence number.
        requires in_range { (i : ℕ) → i < open_numbers → IsBitSet map i → self.now.last + 1 + i ≤ most_seq }
        requires last { version ≡ 2 → self.now.last ≤ most_seq }
        ensures { result ≡ Next version self.now map }
    {
        if version == 1 {
            self.next_gapless(map)
        } else {
            self.next_gapped(map)
        }
    }

    fn next_gapless(&self, map: u64) -> Window
        requires in_range { (i : ℕ) → i < open_numbers → IsBitSet map i → self.now.last + 1 + i ≤ most_seq }
        ensures { result ≡ next_gapless self.now map }
    {
        if map == 0 {
            return *self;
        }
        Window {
            last: self.last + bit_length(map),
            used: 0,
        }
    }

    // A map of which all bits are set is told apart, since a word is not shifted by its width.
    fn next_gapped(&self, map: u64) -> Window
        requires last { self.now.last ≤ most_seq }
        ensures { result ≡ next_gapped self.now map }
    {
        let used = self.used | map;
        if used == u64::MAX {
            let last = self.last + Self::OPEN;
            return Window { last, used: 0 };
        }
        let run = used.trailing_ones();
        Window {
            last: self.last + u64::from(run),
            used: used >> run,
        }
    }
}
