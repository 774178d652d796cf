//! `replay`: a state, and then blocks, each of which may have outcomes after it. Each block is judged on
//! the ledger so far, and applied before the next record is read.

ghost use Rattle.std.specs.Prelude.{◌≡◌, ◌+◌, ◌^◌, ◌≤◌, ℕ, length, IfOk, IsErrOf, IsTrue};
ghost use Rattle.sx_base.specs.Outside.{Rose};
ghost use Rattle.sx_run.specs.Replaying.{IsNext, MayGoOn, Steps};
ghost use Rattle.sx_input.specs.Found.{Found};
ghost use Rattle.sx_input.specs.Stream.{UnlessReadFault};
ghost use Rattle.sx_meaning.specs.Replays.{tags_after};
ghost use Rattle.sx_record.specs.Tags.{block_tag, outcomes_tag};

use crate::commands::advancing::advance;
use std::alloc::Global;
use std::thread::Threads;
use sx_base::Source;
use sx_bytes::{Form, FormFault, Writer};
use sx_check::CheckFault;
use sx_input::{Head, Stop, decoded, decoded_block, end_of, next, take_head};
use sx_outcome::Outcomes;
use sx_record::{Record, tag};
use sx_words::Command;

// How many blocks a replay may have.
const MOST_BLOCKS: u32 = 1_000_000;

// Where a replay stands: the head, the offset of the next record, how many blocks have come, and
// whether the last record is a block.
#[derive(Drop)]
pub struct Place {
    pub head: Head,
    pub at: u64,
    pub blocks: u32,
    pub after_block: bool,
}

// The tags of the records that may come next.
pub fn tags(after_block: bool) -> &'static [u8]
    ensures { result.now ≡ tags_after after_block }
{
    if after_block {
        &[tag::BLOCK, tag::OUTCOMES]
    } else {
        &[tag::BLOCK]
    }
}

// A block, judged on the ledger so far and applied by so many workers.
fn step_block<R: Threads + Sync>(
    rt: &R,
    alloc: Global,
    place: Place,
    found: &Record,
    workers: u32,
) -> Result<Place, Stop>
    requires some_worker { 1 ≤ workers }
    requires few_workers { workers ≤ 64 }
    requires place { MayGoOn place }
    requires found { IsNext place found.now }
    requires tag { found.now.tag ≡ block_tag }
    ensures { Steps place found.now result }
{
    if place.blocks >= MOST_BLOCKS {
        return Err(Stop::Malformed(FormFault {
            at: place.at,
            fault: Form::TooMany,
        }));
    }
    let incoming = decoded_block(rt, alloc, &place.head.ledger, found, workers)?;
    match advance(rt, alloc, place.head, incoming, workers, true) {
        Ok(advanced) => Ok(Place {
            head: advanced.head,
            at: end_of(found),
            blocks: place.blocks + 1,
            after_block: true,
        }),
        Err(CheckFault::Invalid(why)) => Err(Stop::Refused {
            block: place.blocks,
            why,
        }),
        Err(CheckFault::NoMemory) => Err(Stop::NoMemory),
    }
}

// Outcomes, read for their form alone.
fn step_outcomes<R: Threads + Sync>(
    rt: &R,
    alloc: Global,
    place: Place,
    found: &Record,
) -> Result<Place, Stop>
    requires place { MayGoOn place }
    requires found { IsNext place found.now }
    requires tag { found.now.tag ≡ outcomes_tag }
    ensures { Steps place found.now result }
{
    let _ = decoded::<Outcomes, R>(rt, alloc, found)?;
    Ok(Place {
        head: place.head,
        at: end_of(found),
        blocks: place.blocks,
        after_block: false,
    })
}

// One record after the state.
fn step<R: Threads + Sync>(
    rt: &R,
    alloc: Global,
    place: Place,
    found: &Record,
    workers: u32,
) -> Result<Place, Stop>
    requires some_worker { 1 ≤ workers }
    requires few_workers { workers ≤ 64 }
    requires place { MayGoOn place }
    requires found { IsNext place found.now }
    ensures { Steps place found.now result }
{
    if found.tag == tag::OUTCOMES {
        step_outcomes(rt, alloc, place, found)
    } else {
        step_block(rt, alloc, place, found, workers)
    }
}

/// The record of the ledger after all blocks of the input, each of which so many workers apply. How many there
/// are does not change what is found.
pub fn replay<R: Threads + Sync, S: Source>(
    rt: &R,
    alloc: Global,
    workers: u32,
    source: &mut S,
) -> Result<Writer, Stop>
    requires some_worker { 1 ≤ workers }
    requires few_workers { workers ≤ 64 }
    ensures found { (any : ℕ) → Found (Command.Replay any) (S.left source.old) (S.left source.new) result }
    ensures steady { UnlessReadFault result (IsTrue (S.strict source.old) → S.faults source.new ≡ S.faults source.old) }
    ensures read_fault { IsErrOf result Stop.ReadFault → Rose (S.faults source.old) (S.faults source.new) }
{
    let opening = take_head(rt, alloc, source)?;
    let mut place = Place {
        head: opening.held,
        at: opening.end,
        blocks: 0,
        after_block: false,
    };
    while let Some(found) = next(alloc, source, place.at, tags(place.after_block))? {
        place = step(rt, alloc, place, &found, workers)?;
    }
    Ok(place.head.into_state(alloc)?)
}
