//! `check`: a state, a block, and nothing more.

ghost use Rattle.std.specs.Prelude.{◌≡◌, ◌^◌, ◌≤◌, [], ◌∷◌, IsErrOf, IsTrue};
ghost use Rattle.sha2.specs.Sha256.{sha256};
ghost use Rattle.sx_base.specs.Outside.{Rose};
ghost use Rattle.sx_block.specs.Block.{IsBlock};
ghost use Rattle.sx_input.specs.Found.{ConcludesAs, Found};
ghost use Rattle.sx_input.specs.Head.{IsHead};
ghost use Rattle.sx_input.specs.Incoming.{IsReady};
ghost use Rattle.sx_input.specs.Stream.{UnlessReadFault};
ghost use Rattle.sx_meaning.specs.Items as item;
ghost use Rattle.sx_tx.specs.Transactions.{list_bytes};

use crate::commands::advancing::advance;
use std::alloc::Global;
use std::thread::Threads;
use sx_base::Source;
use sx_check::CheckFault;
use sx_input::{Head, Incoming, Stop, end, take_block, take_head};
use sx_text::{Text, check_line};
use sx_words::{Command, Setting};

// The line of a valid block, or the first reason why the block is refused. So many workers apply it.
fn verdict<R: Threads + Sync>(
    rt: &R,
    alloc: Global,
    head: Head,
    incoming: Incoming,
    workers: u32,
) -> Result<Text, Stop>
    requires some_worker { 1 ≤ workers }
    requires few_workers { workers ≤ 64 }
    requires head { IsHead head }
    requires form { IsBlock incoming.block }
    requires body { incoming.body ≡ sha256 (list_bytes incoming.block.txs) }
    requires found { IsReady head.ledger incoming }
    ensures concludes { ConcludesAs Command.Check (item.state head.ledger ∷ item.block incoming.block ∷ []) result }
    ensures calm { IsErrOf result Stop.ReadFault → ⊥ }
{
    match advance(rt, alloc, head, incoming, workers, false) {
        Ok(advanced) => Ok(check_line(alloc, &advanced.checked)?),
        Err(CheckFault::Invalid(why)) => Err(Stop::Refused { block: 0, why }),
        Err(CheckFault::NoMemory) => Err(Stop::NoMemory),
    }
}

/// Checks the block of the input, by as many workers as a replay has if its words name none.
pub fn check<R: Threads + Sync, S: Source>(
    rt: &R,
    alloc: Global,
    source: &mut S,
) -> Result<Text, Stop>
    ensures found { Found Command.Check (S.left source.old) (S.left source.new) result }
    ensures steady { UnlessReadFault result (IsTrue (S.strict source.old) → S.faults source.new ≡ S.faults source.old) }
    ensures read_fault { IsErrOf result Stop.ReadFault → Rose (S.faults source.old) (S.faults source.new) }
{
    let workers = Setting::Workers.default();
    let opening = take_head(rt, alloc, source)?;
    let incoming = take_block(
        rt,
        alloc,
        &opening.held.ledger,
        source,
        opening.end,
        workers,
    )?;
    end(alloc, source, incoming.end)?;
    verdict(rt, alloc, opening.held, incoming.held, workers)
}
