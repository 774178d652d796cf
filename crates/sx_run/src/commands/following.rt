//! `follow`: a state, and then blocks, each of which may have outcomes after it. All blocks are taken, whatever their
//! order, and then those are applied that make a chain.

ghost use Rattle.std.specs.Prelude.{◌≡◌, ◌+◌, ◌^◌, ◌≤◌, length, IfOk, IsErrOf, IsTrue};
ghost use Rattle.sx_base.specs.Outside.{Rose};
ghost use Rattle.sx_run.specs.Following.{IsNext, MayGoOn, Steps};
ghost use Rattle.sx_input.specs.Found.{Found};
ghost use Rattle.sx_input.specs.Stream.{UnlessReadFault};
ghost use Rattle.sx_meaning.specs.Proving.{IsFollowed};
ghost use Rattle.sx_record.specs.Tags.{block_tag, outcomes_tag};

use crate::commands::replaying::tags;
use std::alloc::Global;
use std::thread::{Threads, available_parallelism};
use sx_base::Source;
use sx_block::Block;
use sx_bytes::{Form, FormFault, NoMemory, Writer};
use sx_follow::Follower;
use sx_input::{Stop, decoded, end_of, next, take, written};
use sx_ledger::Ledger;
use sx_outcome::Outcomes;
use sx_record::{Record, tag};
use sx_words::{Command, Setting};

// Where reading stands: the follower, the offset of the next record, and whether the last record is a block.
#[derive(Debug, Drop)]
pub struct Taking {
    pub follower: Follower,
    pub at: u64,
    pub after_block: bool,
}

// A block, which is taken and not judged.
fn step_block<R: Threads + Sync>(
    rt: &R,
    alloc: Global,
    place: Taking,
    found: &Record,
) -> Result<Taking, Stop>
    requires place { MayGoOn place }
    requires found { IsNext place found.now }
    requires tag { found.now.tag ≡ block_tag }
    ensures { Steps place found.now result }
{
    let mut follower = place.follower;
    if follower.taken() >= Follower::MOST_BLOCKS {
        return Err(Stop::Malformed(FormFault {
            at: place.at,
            fault: Form::TooMany,
        }));
    }
    follower.offer(decoded::<Block, R>(rt, alloc, found)?)?;
    Ok(Taking {
        follower,
        at: end_of(found),
        after_block: true,
    })
}

// Outcomes, read for their form alone.
fn step_outcomes<R: Threads + Sync>(
    rt: &R,
    alloc: Global,
    place: Taking,
    found: &Record,
) -> Result<Taking, Stop>
    requires place { MayGoOn place }
    requires found { IsNext place found.now }
    requires tag { found.now.tag ≡ outcomes_tag }
    ensures { Steps place found.now result }
{
    let _ = decoded::<Outcomes, R>(rt, alloc, found)?;
    Ok(Taking {
        follower: place.follower,
        at: end_of(found),
        after_block: false,
    })
}

// One record after the state.
fn step<R: Threads + Sync>(
    rt: &R,
    alloc: Global,
    place: Taking,
    found: &Record,
) -> Result<Taking, Stop>
    requires place { MayGoOn place }
    requires found { IsNext place found.now }
    ensures { Steps place found.now result }
{
    if found.tag == tag::OUTCOMES {
        step_outcomes(rt, alloc, place, found)
    } else {
        step_block(rt, alloc, place, found)
    }
}

// How many threads follow: as many as there are processors, and at most as many as a replay has workers where its words
// name none.
fn threads<R: Threads>(rt: &R) -> u32
    ensures some { 1 ≤ result }
    ensures few { result ≤ 64 }
{
    let most = Setting::Workers.default();
    match available_parallelism(rt) {
        Ok(processors) => processors.get().min(most as usize) as u32,
        Err(_) => most,
    }
}

// The record of the ledger after the chain that the blocks make.
fn followed<R: Threads + Sync>(
    rt: &R,
    alloc: Global,
    mut follower: Follower,
) -> Result<Writer, NoMemory>
    ensures { IfOk result (λ text. IsFollowed follower.opening follower.blocks text) }
{
    follower.par_advance_all(rt, threads(rt))?;
    written(alloc, follower.head(), None)
}

/// The record of the ledger after the chain that the blocks of the input make, whatever their order and whatever else
/// is among them.
pub fn follow<R: Threads + Sync, S: Source>(
    rt: &R,
    alloc: Global,
    source: &mut S,
) -> Result<Writer, Stop>
    ensures found { Found Command.Follow (S.left source.old) (S.left source.new) result }
    ensures steady { UnlessReadFault result (IsTrue (S.strict source.old) → S.faults source.new ≡ S.faults source.old) }
    ensures read_fault { IsErrOf result Stop.ReadFault → Rose (S.faults source.old) (S.faults source.new) }
{
    let opening = take::<Ledger, R, S>(rt, alloc, source, 0)?;
    let mut place = Taking {
        follower: Follower::start(alloc, opening.held)?,
        at: opening.end,
        after_block: false,
    };
    while let Some(found) = next(alloc, source, place.at, tags(place.after_block))? {
        place = step(rt, alloc, place, &found)?;
    }
    Ok(followed(rt, alloc, place.follower)?)
}
