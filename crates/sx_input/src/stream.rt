//! Records of the input, each in its place. What is missing or does not belong there is a form fault.

ghost use Rattle.std.specs.Prelude.{◌≡◌, ◌+◌, ◌^◌, ◌≤◌, [], ◌∷◌, Some, length, IfErr, IfOk, IfSome, OnOk, IsErrOf, IsTrue};
ghost use Rattle.sx_base.specs.Outside.{Rose};
ghost use Rattle.sx_input.specs.Stream.{Reads, Stops, TakesRecord, UnlessReadFault, WasAtEnd};
ghost use Rattle.sx_meaning.specs.Expected.{end_only, item_at, needed};
ghost use Rattle.sx_meaning.specs.Items.{IsItem, item_record, tag_of};
ghost use Rattle.sx_record.specs.Decoding.{record_at};
ghost use Rattle.sx_record.specs.Frame.{MayStand, frame_bytes, most_bytes, record_bytes};
ghost use Rattle.sx_record.specs.Stream.{Took};

use crate::payloads::{Payload, decoded};
use crate::stop::Stop;
use std::alloc::Global;
use std::thread::Threads;
use sx_base::Source;
use sx_bytes::{Form, FormFault, Writer};
use sx_record::{Record, RecordFault, next_record};

/// A fault of form at this offset.
pub fn stop_at(at: u64, fault: Form) -> Stop
    ensures { result ≡ Stop.Malformed (record { at = at; fault = fault }) }
{
    Stop::Malformed(FormFault { at, fault })
}

/// The offset after a record.
pub fn end_of(found: &Record) -> u64
    requires place { found.now.at ≤ 2 ^ 63 + 5 }
    requires fits { length found.now.payload ≤ most_bytes }
    ensures { result ≡ found.now.at + length found.now.payload }
{
    found.at + found.payload.items().len() as u64
}

/// The next record, whose tag is at this offset and one of these, or none at the end of the input.
pub fn next<S: Source>(
    alloc: Global,
    source: &mut S,
    at: u64,
    tags: &[u8],
) -> Result<Option<Record>, Stop>
    requires { at ≤ 2 ^ 63 }
    ensures reads { IfOk result (Reads (record_at tags.now at) (S.left source.old) (S.left source.new)) }
    ensures stops { IfErr result (Stops (record_at tags.now at) (S.left source.old) (S.left source.new)) }
    ensures encoded { IfOk result (TakesRecord (S.left source.old) (S.left source.new)) }
    ensures known { IfOk result (λ found. IfSome found (MayStand tags.now at)) }

    // The count of faults rises where the answer is ReadFault. At each other answer the count of a
    // strict source does not change.
    ensures steady { UnlessReadFault result (IsTrue (S.strict source.old) → S.faults source.new ≡ S.faults source.old) }
    ensures read_fault { IsErrOf result Stop.ReadFault → Rose (S.faults source.old) (S.faults source.new) }
    ensures falls_never { S.faults source.old ≤ S.faults source.new }
    ensures kept { S.strict source.new ≡ S.strict source.old }
{
    match next_record(alloc, source, at, tags) {
        Ok(found) => Ok(found),
        Err(RecordFault::Form(fault)) => Err(Stop::Malformed(fault)),
        Err(RecordFault::Failed) => Err(Stop::ReadFault),
        Err(RecordFault::NoMemory) => Err(Stop::NoMemory),
    }
}

// The next record, which has to be there and to have this tag.
pub fn required<S: Source>(
    alloc: Global,
    source: &mut S,
    at: u64,
    wanted: u8,
) -> Result<Record, Stop>
    requires { at ≤ 2 ^ 63 }
    ensures reads { IfOk result (λ found. Reads (record_at (wanted ∷ []) at) (S.left source.old) (S.left source.new) (Some found)) }
    ensures stops { IfErr result (Stops (item_at (needed wanted) at) (S.left source.old) (S.left source.new)) }
    ensures encoded { IfOk result (λ found. Took (S.left source.old) (S.left source.new) (record_bytes wanted found.payload)) }
    ensures tag { IfOk result (λ found. found.tag ≡ wanted) }
    ensures place { IfOk result (λ found. found.at ≡ at + frame_bytes) }
    ensures fits { IfOk result (λ found. length found.payload ≤ most_bytes) }
    ensures steady { UnlessReadFault result (IsTrue (S.strict source.old) → S.faults source.new ≡ S.faults source.old) }
    ensures read_fault { IsErrOf result Stop.ReadFault → Rose (S.faults source.old) (S.faults source.new) }
    ensures falls_never { S.faults source.old ≤ S.faults source.new }
    ensures kept { S.strict source.new ≡ S.strict source.old }
{
    match next(alloc, source, at, &[wanted])? {
        Some(found) => Ok(found),
        None => Err(stop_at(at, Form::Short)),
    }
}

/// What a record holds, and the offset after it.
#[derive(Debug, Drop)]
pub struct Taken<P> {
    pub held: P,
    pub end: u64,
}

/// What the next record holds, which has to be there and to have the tag of such, and the memory of its payload, for what
/// is written next.
pub fn take_with_spare<P: Payload, R: Threads + Sync, S: Source>(
    rt: &R,
    alloc: Global,
    source: &mut S,
    at: u64,
) -> Result<(Taken<P>, Writer), Stop>
    requires { at ≤ 2 ^ 63 }
    ensures stops { IfErr result (Stops (item_at (needed P.TAG) at) (S.left source.old) (S.left source.new)) }
    ensures took { IfOk result (λ taken. Took (S.left source.old) (S.left source.new) (item_record (P.item taken.0.held))) }
    ensures form { IfOk result (λ taken. IsItem (P.item taken.0.held)) }
    ensures tag { IfOk result (λ taken. tag_of (P.item taken.0.held) ≡ P.TAG) }
    ensures known { IfOk result (λ taken. P.goes_with taken.0.held) }
    ensures end { IfOk result (λ taken. taken.0.end ≡ at + length (item_record (P.item taken.0.held))) }
    ensures near { IfOk result (λ taken. taken.0.end ≤ at + (frame_bytes + most_bytes)) }
    ensures steady { UnlessReadFault result (IsTrue (S.strict source.old) → S.faults source.new ≡ S.faults source.old) }
    ensures read_fault { IsErrOf result Stop.ReadFault → Rose (S.faults source.old) (S.faults source.new) }
    ensures falls_never { S.faults source.old ≤ S.faults source.new }
    ensures kept { S.strict source.new ≡ S.strict source.old }
{
    let found = required(alloc, source, at, P::TAG)?;
    let held = decoded(rt, alloc, &found)?;
    let end = end_of(&found);
    let spare = Writer::over(found.payload.into_items());
    Ok((Taken { held, end }, spare))
}

/// What the next record holds, which has to be there and to have the tag of such.
pub fn take<P: Payload, R: Threads + Sync, S: Source>(
    rt: &R,
    alloc: Global,
    source: &mut S,
    at: u64,
) -> Result<Taken<P>, Stop>
    requires { at ≤ 2 ^ 63 }
    ensures stops { IfErr result (Stops (item_at (needed P.TAG) at) (S.left source.old) (S.left source.new)) }
    ensures took { IfOk result (λ taken. Took (S.left source.old) (S.left source.new) (item_record (P.item taken.held))) }
    ensures form { IfOk result (λ taken. IsItem (P.item taken.held)) }
    ensures tag { IfOk result (λ taken. tag_of (P.item taken.held) ≡ P.TAG) }
    ensures known { IfOk result (λ taken. P.goes_with taken.held) }
    ensures end { IfOk result (λ taken. taken.end ≡ at + length (item_record (P.item taken.held))) }
    ensures near { IfOk result (λ taken. taken.end ≤ at + (frame_bytes + most_bytes)) }
    ensures steady { UnlessReadFault result (IsTrue (S.strict source.old) → S.faults source.new ≡ S.faults source.old) }
    ensures read_fault { IsErrOf result Stop.ReadFault → Rose (S.faults source.old) (S.faults source.new) }
    ensures falls_never { S.faults source.old ≤ S.faults source.new }
    ensures kept { S.strict source.new ≡ S.strict source.old }
{
    let (taken, _spare) = take_with_spare(rt, alloc, source, at)?;
    Ok(taken)
}

/// The end of the input.
pub fn end<S: Source>(alloc: Global, source: &mut S, at: u64) -> Result<(), Stop>
    requires { at ≤ 2 ^ 63 }
    ensures stops { IfErr result (Stops (item_at end_only at) (S.left source.old) (S.left source.new)) }
    ensures ended { OnOk result (WasAtEnd (S.left source.old) (S.left source.new)) }
    ensures steady { UnlessReadFault result (IsTrue (S.strict source.old) → S.faults source.new ≡ S.faults source.old) }
    ensures read_fault { IsErrOf result Stop.ReadFault → Rose (S.faults source.old) (S.faults source.new) }
    ensures falls_never { S.faults source.old ≤ S.faults source.new }
    ensures kept { S.strict source.new ≡ S.strict source.old }
{
    match next(alloc, source, at, &[]) {
        Ok(None) => Ok(()),
        Ok(Some(_)) => Err(stop_at(at, Form::Rest)),
        Err(Stop::Malformed(_)) => Err(stop_at(at, Form::Rest)),
        Err(stop) => Err(stop),
    }
}
