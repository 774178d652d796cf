//! The steps that the source and the sink in memory share.

ghost use Rattle.std.specs.Prelude.{◌≡◌, ◌⊎◌, ◌+◌, ◌<◌, ◌≤◌, ◌↔◌, ◌++◌, length, take, drop, Contains, IsTrue};

// Whether this call, counted from 0, is one of those that fail.
pub fn is_listed(failing: &[u32], call: u64) -> bool
    ensures { IsTrue result ↔ Contains failing.now call }
{
    failing.iter().any(|listed| u64::from(*listed) == call)
}

// Writes the bytes over the first of the slice.
pub fn write_first(into: &mut [u8], bytes: &[u8])
    requires { length bytes.now ≤ length into.old }
    ensures { into.new ≡ bytes.now ++ drop (length bytes.now) into.old }
{
    into[..bytes.len()].copy_from_slice(bytes);
}

// Whether a put fails: the call is listed, or it has bytes and there is no room for any.
pub fn is_refused(failing: &[u32], call: u64, wanted: usize, room: usize) -> bool
    ensures { IsTrue result ↔ (Contains failing.now call ⊎ ((0 < wanted) × (room ≡ 0))) }
{
    is_listed(failing, call) || (wanted > 0 && room == 0)
}

// Writes the bytes over those from this place on.
pub fn write_at(into: &mut [u8], place: usize, bytes: &[u8])
    requires { place + length bytes.now ≤ length into.old }
    ensures { take (place + length bytes.now) into.new ≡ take place into.old ++ bytes.now }
{
    into[place..place + bytes.len()].copy_from_slice(bytes);
}
