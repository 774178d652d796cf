//! The state at the beginning of an input, with its digest.

ghost use Rattle.std.specs.Prelude.{◌≡◌, ◌+◌, ◌^◌, ◌<◌, ◌≤◌, length, IfErr, IfOk, IsErrOf, IsTrue};
ghost use Rattle.sx_base.specs.Outside.{Rose};
ghost use Rattle.sx_input.specs.Head.{IsHead};
ghost use Rattle.sx_input.specs.Stream.{Holds, Stops, UnlessReadFault};
ghost use Rattle.sx_state.specs.Encoding.{state_bytes};
ghost use Rattle.sx_ledger.specs.Ledger.{IsLedger};
ghost use Rattle.sx_meaning.specs.Expected.{item_at, needed};
ghost use Rattle.sx_meaning.specs.Items.{item_record, payload_at};
ghost use Rattle.sx_meaning.specs.Items as item;
ghost use Rattle.sx_record.specs.Frame.{frame_bytes, most_bytes};
ghost use Rattle.sx_record.specs.Stream.{Took};
ghost use Rattle.sx_record.specs.Tags.{state_tag};

use crate::head::Head;
use crate::payloads::decoded;
use crate::stop::Stop;
use crate::stream::{Taken, end_of, required};
use std::alloc::Global;
use std::sync::Arc;
use std::thread::Threads;
use sx_base::Source;
use sx_digests::StateDigest;
use sx_record::{Record, tag};

// The ledger of a record, which is let go, and where a chain of blocks stands on it. A thread makes the digest of a
// large record while it is decoded, and goes on after that.
fn begun<R: Threads + Sync>(rt: &R, alloc: Global, found: Record) -> Result<Head, Stop>
    requires place { found.at ≤ 2 ^ 63 + 5 }
    requires fits { length found.payload ≤ most_bytes }
    ensures exact { Holds (λ head. item.state head.ledger) found.at (payload_at state_tag found.payload) result }
    ensures form { IfOk result (λ head. IsLedger head.ledger) }
    ensures encoded { IfOk result (λ head. found.payload ≡ state_bytes head.ledger) }
    ensures head { IfOk result IsHead }
{
    let Ok(found) = Arc::new(alloc, found) else {
        return Err(Stop::NoMemory);
    };
    let digest = StateDigest::start(rt, &found);
    let ledger = decoded(rt, alloc, &found)?;
    Ok(Head {
        ledger,
        state: None,
        digest,
    })
}

/// The state, which has to be the first record, and where a chain of blocks stands on it.
pub fn take_head<R: Threads + Sync, S: Source>(
    rt: &R,
    alloc: Global,
    source: &mut S,
) -> Result<Taken<Head>, Stop>
    ensures stops { IfErr result (Stops (item_at (needed state_tag) 0) (S.left source.old) (S.left source.new)) }
    ensures took { IfOk result (λ taken. Took (S.left source.old) (S.left source.new) (item_record (item.state taken.held.ledger))) }
    ensures form { IfOk result (λ taken. IsLedger taken.held.ledger) }
    ensures head { IfOk result (λ taken. IsHead taken.held) }
    ensures end { IfOk result (λ taken. taken.end ≡ length (item_record (item.state taken.held.ledger))) }
    ensures near { IfOk result (λ taken. taken.end ≤ frame_bytes + most_bytes) }
    ensures steady { UnlessReadFault result (IsTrue (S.strict source.old) → S.faults source.new ≡ S.faults source.old) }
    ensures read_fault { IsErrOf result Stop.ReadFault → Rose (S.faults source.old) (S.faults source.new) }
    ensures falls_never { S.faults source.old ≤ S.faults source.new }
    ensures kept { S.strict source.new ≡ S.strict source.old }
{
    let found = required(alloc, source, 0, tag::STATE)?;
    let end = end_of(&found);
    let held = begun(rt, alloc, found)?;
    Ok(Taken { held, end })
}
