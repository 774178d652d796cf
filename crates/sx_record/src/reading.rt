//! A record is read in three steps, each tested before the next: its tag, its length, its payload.

ghost use Rattle.std.specs.Prelude.{◌≡◌, ◌+◌, ◌-◌, ◌^◌, ◌<◌, ◌≤◌, ◌∷◌, [], length, Contains, IfOk, OnOk, IfSome, IsErrOf, IsTrue, vec_len};
ghost use Rattle.byteorder.specs.Endian.{big_bytes, big_number};
ghost use Rattle.sx_base.specs.Outside.{Rose};
ghost use Rattle.sx_record.specs.Frame.{most_bytes, frame_bytes, record_bytes, MayStand};
ghost use Rattle.sx_record.specs.Decoding.{length_at, record_at};
ghost use Rattle.sx_record.specs.Stream.{Took, Adds, EndsShort, DecodesStream, HasTag, UnlessFailed, IfForm};

use crate::fault::RecordFault;
use crate::frame::{FRAME_BYTES, MOST_BYTES, Record};
use byteorder::{BigEndian, ByteOrder};
use std::alloc::Global;
use sx_base::{Source, TakeFault, take_exact};
use sx_bytes::{Bytes, Form, FormFault, NoMemory};

// The memory that is taken for a payload before any of it has come, in bytes.
const FIRST_PIECE: usize = 65_536;

// How many bytes of a payload are read at a time. They are still in a processor's cache from being zeroed then.
const MOST_AT_ONCE: usize = 1 << 18;

/// Reads the next record. `at` is the offset of its tag, and `tags` are those that are allowed here.
///
/// `None` comes exactly where the input ends before the record begins. `RecordFault::Form` is the
/// first fault: Short at the first byte that is missing inside the record, Tag at a tag that is not
/// in `tags`, TooLong at a length above 67,108,864. The tag is tested before the length is read.
/// `RecordFault::Failed` comes only where the source's count of faults rose in the call. Where it
/// comes, or where memory ran out, the source may have been read further.
pub fn next_record<S: Source>(
    alloc: Global,
    source: &mut S,
    at: u64,
    tags: &[u8],
) -> Result<Option<Record>, RecordFault>
    requires { at ≤ 2 ^ 63 }

    // What is answered, and what is left of a source that tells its bytes.
    ensures exact { DecodesStream (record_at tags.now at) (S.left source.old) (S.left source.new) result }

    // What was taken from such a source is the encoding of the record.
    ensures encoded { IfOk result (λ found. IfSome found (λ r.
        Took (S.left source.old) (S.left source.new) (record_bytes r.tag r.payload))) }

    // What is known of a record from any source.
    ensures known { IfOk result (λ found. IfSome found (MayStand tags.now at)) }

    // The count of faults rises where the answer is Failed. At each other answer, NoMemory among
    // them, the count of a strict source does not change.
    ensures steady { UnlessFailed result (IsTrue (S.strict source.old) → S.faults source.new ≡ S.faults source.old) }
    ensures failed { IsErrOf result RecordFault.Failed → Rose (S.faults source.old) (S.faults source.new) }
    ensures falls_never { S.faults source.old ≤ S.faults source.new }
    ensures kept { S.strict source.new ≡ S.strict source.old }
{
    let Some(tag) = next_tag(source)? else {
        return Ok(None);
    };
    if !tags.contains(&tag) {
        return Err(fault_at(at, Form::Tag));
    }
    let size = next_length(source, at + 1)?;
    let payload = next_payload(alloc, source, at + FRAME_BYTES, size)?;
    Ok(Some(Record {
        tag,
        at: at + FRAME_BYTES,
        payload: Bytes::of(payload),
    }))
}

fn fault_at(at: u64, fault: Form) -> RecordFault
    ensures { result ≡ RecordFault.Form (record { at = at; fault = fault }) }
{
    RecordFault::Form(FormFault { at, fault })
}

// Fills a slice with the next bytes, of which the first is at this offset.
fn fill<S: Source>(source: &mut S, at: u64, into: &mut [u8]) -> Result<(), RecordFault>
    requires { at + length into.old < 2 ^ 64 }
    ensures ok { OnOk result (Took (S.left source.old) (S.left source.new) into.new) }
    ensures form { IfForm result (λ fault.
        EndsShort (S.left source.old) (S.left source.new) (length into.old) at fault) }
    ensures steady { UnlessFailed result (IsTrue (S.strict source.old) → S.faults source.new ≡ S.faults source.old) }
    ensures failed { IsErrOf result RecordFault.Failed → Rose (S.faults source.old) (S.faults source.new) }
    ensures falls_never { S.faults source.old ≤ S.faults source.new }
    ensures kept { S.strict source.new ≡ S.strict source.old }
{
    match take_exact(source, into) {
        Ok(()) => Ok(()),
        Err(TakeFault::Failed) => Err(RecordFault::Failed),
        Err(TakeFault::Ended { got }) => Err(fault_at(at + got as u64, Form::Short)),
    }
}

// The tag of the next record, if there is one.
fn next_tag<S: Source>(source: &mut S) -> Result<Option<u8>, RecordFault>
    ensures ok { IfOk result (HasTag (S.left source.old) (S.left source.new)) }
    ensures form { IfForm result (λ _. ⊥) }
    ensures steady { UnlessFailed result (IsTrue (S.strict source.old) → S.faults source.new ≡ S.faults source.old) }
    ensures failed { IsErrOf result RecordFault.Failed → Rose (S.faults source.old) (S.faults source.new) }
    ensures falls_never { S.faults source.old ≤ S.faults source.new }
    ensures kept { S.strict source.new ≡ S.strict source.old }
{
    let mut tag = [0; 1];
    match source.take(&mut tag)? {
        0 => Ok(None),
        _ => Ok(Some(tag[0])),
    }
}

// The length of a payload, whose field is at this offset.
fn next_length<S: Source>(source: &mut S, at: u64) -> Result<u32, RecordFault>
    requires { at ≤ 2 ^ 63 + 1 }
    ensures exact { DecodesStream (length_at at) (S.left source.old) (S.left source.new) result }
    ensures encoded { IfOk result (λ n. Took (S.left source.old) (S.left source.new) (big_bytes 4 n)) }
    ensures fits { IfOk result (λ n. n ≤ most_bytes) }
    ensures steady { UnlessFailed result (IsTrue (S.strict source.old) → S.faults source.new ≡ S.faults source.old) }
    ensures failed { IsErrOf result RecordFault.Failed → Rose (S.faults source.old) (S.faults source.new) }
    ensures falls_never { S.faults source.old ≤ S.faults source.new }
    ensures kept { S.strict source.new ≡ S.strict source.old }
{
    let mut field = [0; 4];
    fill(source, at, &mut field)?;
    let length = length_in(&field);
    if length > MOST_BYTES {
        return Err(fault_at(at, Form::TooLong));
    }
    Ok(length)
}

// The length that a field of four bytes holds.
fn length_in(field: &[u8]) -> u32
    requires { length field.now ≡ 4 }
    ensures decoded { result ≡ big_number 4 field.now }
    ensures encoded { field.now ≡ big_bytes 4 result }
{
    BigEndian::read_u32(field)
}

// The next `size` bytes, of which the first is at this offset.
fn next_payload<S: Source>(
    alloc: Global,
    source: &mut S,
    at: u64,
    size: u32,
) -> Result<Vec<u8>, RecordFault>
    requires { at ≤ 2 ^ 63 + 5 }
    ensures ok { IfOk result (λ payload. Took (S.left source.old) (S.left source.new) payload.items) }
    ensures whole { IfOk result (λ payload. length payload.items ≡ size) }
    ensures form { IfForm result (λ fault.
        EndsShort (S.left source.old) (S.left source.new) size at fault) }
    ensures steady { UnlessFailed result (IsTrue (S.strict source.old) → S.faults source.new ≡ S.faults source.old) }
    ensures failed { IsErrOf result RecordFault.Failed → Rose (S.faults source.old) (S.faults source.new) }
    ensures falls_never { S.faults source.old ≤ S.faults source.new }
    ensures kept { S.strict source.new ≡ S.strict source.old }
{
    let mut payload = Vec::new(alloc);
    while payload.len() < size as usize {
        take_piece(source, at, size as usize, &mut payload)?;
    }
    Ok(payload)
}

// Takes the memory for as many bytes more as have come, or for all that are missing if these are fewer, and for a frame:
// so a record of the same length can be written in the memory of this payload. Where there is memory for the next piece
// already, none is taken.
fn make_room(payload: &mut Vec<u8>, size: usize, piece: usize) -> Result<(), NoMemory>
    requires { vec_len payload.old ≤ size }
    ensures { payload.new.items ≡ payload.old.items }
{
    let come = payload.len();
    if payload.capacity() - come < piece {
        payload.reserve_exact(come.max(FIRST_PIECE).min(size - come) + FRAME_BYTES as usize)?;
    }
    Ok(())
}

// Appends the next bytes of the payload to those that have come.
fn take_piece<S: Source>(
    source: &mut S,
    at: u64,
    size: usize,
    payload: &mut Vec<u8>,
) -> Result<(), RecordFault>
    requires missing { vec_len payload.old < size }
    requires room { at + size < 2 ^ 64 }
    ensures ok { OnOk result (Adds (S.left source.old) (S.left source.new) payload.old.items payload.new.items) }
    ensures more { OnOk result (vec_len payload.old < vec_len payload.new) }
    ensures within { OnOk result (vec_len payload.new ≤ size) }
    ensures form { IfForm result (λ fault. EndsShort (S.left source.old) (S.left source.new)
        (size - vec_len payload.old) (at + vec_len payload.old) fault) }
    ensures steady { UnlessFailed result (IsTrue (S.strict source.old) → S.faults source.new ≡ S.faults source.old) }
    ensures failed { IsErrOf result RecordFault.Failed → Rose (S.faults source.old) (S.faults source.new) }
    ensures falls_never { S.faults source.old ≤ S.faults source.new }
    ensures kept { S.strict source.new ≡ S.strict source.old }
{
    let come = payload.len();
    let piece = come.clamp(FIRST_PIECE, MOST_AT_ONCE).min(size - come);
    make_room(payload, size, piece)?;
    payload.resize(come + piece, 0)?;
    fill(source, at + come as u64, &mut payload[come..])
}
