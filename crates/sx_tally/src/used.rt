//! The sequence numbers that a body uses.

ghost use Rattle.std.specs.Prelude.{◌≡◌, ◌+◌, ◌-◌, ◌<◌, ◌≤◌, ◌^◌, length, set, slice_index};
ghost use Rattle.std.specs.Int.Bits.{bit_or};
ghost use Rattle.sx_tx.specs.Window.{open_numbers};

use sx_base::Seq;

/// Sets the bit of a sequence number in the map of the account at a place, whose last number is `last`.
pub fn mark_used(maps: &mut Vec<u64>, place: u32, last: u64, seq: Seq)
    requires place { place < length maps.old.items }
    requires above { last < seq }
    requires within { seq ≤ last + open_numbers }
    ensures { maps.new.items
        ≡ set maps.old.items place (bit_or (slice_index maps.old.items place) (2 ^ (seq - last - 1))) }
{
    maps[place as usize] |= 1 << (seq.get() - last - 1);
}
