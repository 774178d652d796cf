//! `seal`: a state, candidates, and nothing more. A block is made of the candidates, and it and what became
//! of each candidate are written.

ghost use Rattle.std.specs.Prelude.{◌≡◌, ◌+◌, ◌≤◌, ◌++◌, [], ◌∷◌, length, Err, IfErr, IfOk, IsErrOf, IsTrue};
ghost use Rattle.sx_base.specs.Outside.{Rose};
ghost use Rattle.sx_block.specs.Block.{IsBlock};
ghost use Rattle.sx_clear.specs.TradeSearches.{most_clearing_searches};
ghost use Rattle.sx_input.specs.Found.{ConcludesAs, Found};
ghost use Rattle.sx_input.specs.Head.{IsHead};
ghost use Rattle.sx_input.specs.Stream.{UnlessReadFault};
ghost use Rattle.sx_outcome.specs.Outcomes.{AreOutcomes};
ghost use Rattle.sx_ledger.specs.Ledger.{IsLedger};
ghost use Rattle.sx_meaning.specs.Findings.{Concludes, no_fault};
ghost use Rattle.sx_meaning.specs.Items.{item_record};
ghost use Rattle.sx_meaning.specs.Items as item;
ghost use Rattle.sx_meaning.specs.Sealing.{IsMadeOf};
ghost use Rattle.sx_record.specs.Frame.{frame};
ghost use Rattle.sx_record.specs.Tags.{outcomes_tag};
ghost use Rattle.sx_run.specs.Numbers.{AreNumbers};
ghost use Rattle.sx_run.specs.Making.{IsStoppedBy, seal_of};
ghost use Rattle.sx_tx.specs.Transactions.{IsTxList, list_bytes};

use crate::commands::{MadeInPlace, Numbers, make_in_place};
use crate::pieces::Pieces;
use std::alloc::Global;
use std::sync::ledger;
use std::thread::Threads;
use sx_base::Source;
use sx_block::{Block, Invalid, block_laws, header_length, write_header};
use sx_bytes::{NoMemory, Writer};
use sx_clear::Cleared;
use sx_gather::GatherFault;
use sx_input::{Head, Stop, end, take_head, take_with_spare};
use sx_net::Steps;
use sx_outcome::{PackedOutcomes, outcome_list_laws, write_packed};
use sx_record::tag;
use sx_tx::TxList;
use sx_workers::Gate;

// Why a seal stops that could not gather.
fn stop_of(fault: GatherFault) -> Stop
    ensures { IsStoppedBy fault result }
{
    match fault {
        GatherFault::NoMemory => Stop::NoMemory,
        GatherFault::Ended => Stop::Refused {
            block: 0,
            why: Invalid::Ended,
        },
        GatherFault::Crowded { have, more, limit } => Stop::Refused {
            block: 0,
            why: Invalid::Crowded { have, more, limit },
        },
    }
}

// What stands before the transactions of a block in its record: the frame and the header.
fn front_of_block(alloc: Global, block: &Block, list: &[u8]) -> Result<Writer, NoMemory>
    requires block { IsBlock block.now }
    requires list { list.now ≡ list_bytes block.now.txs }
    ensures { IfOk result (λ front. front ++ list.now ≡ item_record (item.block block.now)) }
{
    block_laws();
    let size = header_length(block) + list.len();
    let mut front = Writer::new(alloc);
    front.put_u8(tag::BLOCK)?;
    front.put_u32(size as u32)?;
    write_header(&mut front, &block.header)?;
    Ok(front)
}

// The frame of a record of outcomes, whose payload has so many bytes.
fn front_of_outcomes(alloc: Global, size: u32) -> Result<Writer, NoMemory>
    ensures { IfOk result (λ front. front ≡ frame outcomes_tag size) }
{
    let mut front = Writer::new(alloc);
    front.put_u8(tag::OUTCOMES)?;
    front.put_u32(size)?;
    Ok(front)
}

// Two texts, each of which comes in two pieces.
fn in_pieces(
    alloc: Global,
    front: Writer,
    list: Writer,
    next_front: Writer,
    next: Writer,
) -> Result<Pieces, NoMemory>
    ensures { IfOk result (λ pieces. pieces ≡ (front ++ list) ++ (next_front ++ next)) }
{
    let mut pieces = Vec::with_capacity(alloc, 4)?;
    pieces.push(front)?;
    pieces.push(list)?;
    pieces.push(next_front)?;
    pieces.push(next)?;
    Ok(Pieces::of(pieces))
}

// The record of a block, and then that of outcomes. The transactions stand in it where they were written.
fn written(alloc: Global, cleared: Cleared, outcomes: &PackedOutcomes) -> Result<Pieces, NoMemory>
    requires block { IsBlock cleared.block }
    requires list { cleared.list ≡ list_bytes cleared.block.txs }
    requires outcomes { AreOutcomes outcomes.now }
    ensures { IfOk result (λ told. told ≡ item_record (item.block cleared.block) ++ item_record (item.outcomes outcomes.now)) }
{
    outcome_list_laws();
    let Cleared { block, list } = cleared;
    let front = front_of_block(alloc, &block, list.bytes())?;
    let mut told = Writer::new(alloc);
    write_packed(&mut told, outcomes)?;
    let next_front = front_of_outcomes(alloc, told.bytes().len() as u32)?;
    in_pieces(alloc, front, list, next_front, told)
}

// A block of the candidates, or why there is no room for them. The ledger is let go, and the transactions are written over
// what is spare.
fn made<R: Threads + Sync, G: Gate + Sync, L: ledger::Ledger>(
    rt: &R,
    alloc: Global,
    head: Head,
    candidates: TxList,
    spare: Writer,
    numbers: Numbers,
    gate: &G,
    steps: &mut Steps<L>,
) -> Result<MadeInPlace, Stop>
    requires ledger { IsLedger head.ledger }
    requires head { IsHead head }
    requires candidates { IsTxList candidates }
    requires numbers { AreNumbers numbers }
    ensures made { IfOk result (λ made. IsMadeOf head.ledger candidates numbers.mu numbers.rounds numbers.searches made.cleared.block made.outcomes) }
    ensures list { IfOk result (λ made. made.cleared.list ≡ list_bytes made.cleared.block.txs) }
    ensures told { IfOk result (λ made. AreOutcomes made.outcomes) }
    ensures room { IfOk result (λ _. Concludes (seal_of numbers) (item.state head.ledger ∷ item.candidates candidates ∷ []) no_fault) }
    ensures stops { IfErr result (λ why. ConcludesAs (seal_of numbers) (item.state head.ledger ∷ item.candidates candidates ∷ []) (Err why)) }
    ensures calm { IsErrOf result Stop.ReadFault → ⊥ }
    ensures counted { steps.new ≤ steps.old + most_clearing_searches }
    ensures rising { steps.old ≤ steps.new }
{
    match make_in_place(rt, alloc, head, candidates, spare, numbers, gate, steps) {
        Ok(made) => Ok(made),
        Err(fault) => Err(stop_of(fault)),
    }
}

// The records of a block of the candidates and of what became of them, or why there is no room for them.
fn sealed<R: Threads + Sync, G: Gate + Sync, L: ledger::Ledger>(
    rt: &R,
    alloc: Global,
    head: Head,
    candidates: TxList,
    spare: Writer,
    numbers: Numbers,
    gate: &G,
    steps: &mut Steps<L>,
) -> Result<Pieces, Stop>
    requires ledger { IsLedger head.ledger }
    requires head { IsHead head }
    requires candidates { IsTxList candidates }
    requires numbers { AreNumbers numbers }
    ensures concludes { ConcludesAs (seal_of numbers) (item.state head.ledger ∷ item.candidates candidates ∷ []) result }
    ensures calm { IsErrOf result Stop.ReadFault → ⊥ }
    ensures counted { steps.new ≤ steps.old + most_clearing_searches }
    ensures rising { steps.old ≤ steps.new }
{
    let made = made(rt, alloc, head, candidates, spare, numbers, gate, steps)?;
    Ok(written(alloc, made.cleared, &made.outcomes)?)
}

/// The block of the candidates of the input, and what became of each. The transactions of the block are written in the
/// memory in which the candidates were read.
pub fn seal<R: Threads + Sync, S: Source, G: Gate + Sync, L: ledger::Ledger>(
    rt: &R,
    alloc: Global,
    numbers: Numbers,
    source: &mut S,
    gate: &G,
    steps: &mut Steps<L>,
) -> Result<Pieces, Stop>
    requires { AreNumbers numbers }
    ensures found { Found (seal_of numbers) (S.left source.old) (S.left source.new) result }
    ensures steady { UnlessReadFault result (IsTrue (S.strict source.old) → S.faults source.new ≡ S.faults source.old) }
    ensures read_fault { IsErrOf result Stop.ReadFault → Rose (S.faults source.old) (S.faults source.new) }
    ensures counted { steps.new ≤ steps.old + most_clearing_searches }
    ensures rising { steps.old ≤ steps.new }
{
    let opening = take_head(rt, alloc, source)?;
    let (candidates, spare) = take_with_spare::<TxList, R, S>(rt, alloc, source, opening.end)?;
    end(alloc, source, candidates.end)?;
    sealed(
        rt,
        alloc,
        opening.held,
        candidates.held,
        spare,
        numbers,
        gate,
        steps,
    )
}
