//! Where the parts of a list of transactions seem to begin, so that threads can decode them side by side.
//!
//! If the bytes are as many as they would be if all transactions were as long as the first, the guess is that they are.
//! Otherwise one thread steps over the transactions before a part, by the bytes of the kinds alone. A guess may be wrong:
//! whoever takes it looks whether the part before it ends there.

ghost use Rattle.std.specs.Prelude.{◌≤◌};

use sx_bytes::{Form, FormFault, Reader, Short};

// How many bytes are worth a thread of their own: some 8,000 transactions. Decoding them takes a third of a millisecond,
// and to start a thread a part of that.
const WORTH_A_THREAD: usize = 262_144;

// How many of so many workers are worth starting for so many bytes.
pub(crate) fn threads_for(bytes: usize, workers: u32) -> usize
    requires { 1 ≤ workers }
    ensures { 1 ≤ result }
{
    (bytes / WORTH_A_THREAD).clamp(1, workers as usize)
}

// A fault at a place. Which one it is makes no difference to those who guess.
pub(crate) fn fault_at(place: usize, fault: Form) -> FormFault {
    let at = place as u64;
    FormFault { at, fault }
}

// The length of each of so many transactions in so many bytes, where all seem to be as long as the first.
pub(crate) fn length_of_each(bytes: usize, count: usize, first: usize) -> Option<usize> {
    match count.saturating_mul(first) == bytes {
        true => Some(first),
        false => None,
    }
}

// Where so many transactions from a place on seem to end, each of which seems to have this length, if one is given.
// Otherwise the byte of each one's kind is looked at, and no other field.
pub(crate) fn end_of(
    payload: &[u8],
    place: usize,
    count: usize,
    each: Option<usize>,
) -> Result<usize, Short> {
    if let Some(length) = each {
        return Ok(place.saturating_add(count.saturating_mul(length)));
    }
    let mut from = Reader::at(payload, place)?;
    for _ in 0..count {
        let head = from.raw(17)?;
        let fields = match head[16] {
            1 => 17,
            2 => 8,
            _ => 18,
        };
        from.raw(fields)?;
    }
    Ok(from.place())
}
