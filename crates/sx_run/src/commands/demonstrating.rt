//! `demo`: the block of a market that is made from a number. Nothing is read.

ghost use Rattle.std.specs.Prelude.{◌≡◌, ◌+◌, ◌≤◌, ℕ, List, Option, Ok, IfOk, IsErrOf};
ghost use Rattle.sx_block.specs.Validity.{IsValid};
ghost use Rattle.sx_block.specs.Checked.{checked_of};
ghost use Rattle.sx_clear.specs.TradeSearches.{most_clearing_searches};
ghost use Rattle.sx_gather.specs.Start.{IsFaultOf};
ghost use Rattle.sx_gen.specs.Candidates.{demo_txs};
ghost use Rattle.sx_gen.specs.State.{demo_parts};
ghost use Rattle.sx_input.specs.Found.{Found};
ghost use Rattle.sx_ledger.specs.Ledger.{IsLedger};
ghost use Rattle.sx_meaning.specs.Sealing.{IsMadeOf};
ghost use Rattle.sx_run.specs.Numbers.{AreNumbers};
ghost use Rattle.sx_words.specs.Settings.{Takes, default_of};

use crate::commands::{Made, Numbers, make};
use std::alloc::Global;
use std::sync::ledger;
use std::thread::Threads;
use sx_block::{Block, Checked, check_laws};
use sx_bytes::NoMemory;
use sx_check::{CheckFault, check};
use sx_gather::GatherFault;
use sx_gen::{demo_candidates, demo_laws, demo_state};
use sx_input::Stop;
use sx_ledger::Ledger;
use sx_net::Steps;
use sx_price::Mu;
use sx_text::{Text, demo_lines};
use sx_words::{Command, Setting};
use sx_workers::Gate;

// How the block is made: as a seal is by default, but by so many workers.
fn numbers_of(workers: u32) -> Numbers
    requires { Takes Setting.Workers workers }
    ensures range { AreNumbers result }
    ensures mu { result.mu ≡ default_of Setting.Mu }
    ensures rounds { result.rounds ≡ default_of Setting.Rounds }
    ensures searches { result.searches ≡ default_of Setting.Searches }
{
    Numbers {
        workers,
        shards: Setting::Shards.default(),
        mu: Mu::new(Setting::Mu.default() as u8).unwrap(),
        rounds: Setting::Rounds.default(),
        searches: Setting::Searches.default(),
    }
}

// Why candidates for which there is room are not gathered.
fn no_memory(fault: GatherFault) -> NoMemory
    requires { IsFaultOf (Ok tt) fault }
{
    match fault {
        GatherFault::NoMemory => NoMemory,
        GatherFault::Ended => unreachable!(),
        GatherFault::Crowded { .. } => unreachable!(),
    }
}

// The block of the demonstration. There is room for all its candidates.
fn made<R: Threads + Sync, G: Gate + Sync, L: ledger::Ledger>(
    rt: &R,
    alloc: Global,
    ledger: &Ledger,
    number: u64,
    numbers: Numbers,
    gate: &G,
    steps: &mut Steps<L>,
) -> Result<Made, NoMemory>
    requires ledger { IsLedger ledger.now }
    requires parts { ledger.now ≡ demo_parts }
    requires numbers { AreNumbers numbers }
    ensures made { IfOk result (λ made. IsMadeOf demo_parts (demo_txs number) numbers.mu numbers.rounds numbers.searches made.block made.outcomes) }
    ensures counted { steps.new ≤ steps.old + most_clearing_searches }
    ensures rising { steps.old ≤ steps.new }
{
    demo_laws();
    let candidates = demo_candidates(alloc, number)?;
    match make(rt, alloc, ledger, candidates, numbers, gate, steps) {
        Ok(made) => Ok(made),
        Err(fault) => Err(no_memory(fault)),
    }
}

// What a check tells of a block that is valid.
fn checked(alloc: Global, ledger: &Ledger, block: &Block) -> Result<Checked, NoMemory>
    requires { IsValid ledger.now block.now }
    ensures { IfOk result (λ checked. checked ≡ checked_of block.now) }
{
    check_laws();
    match check(alloc, ledger, block) {
        Ok(checked) => Ok(checked),
        Err(CheckFault::NoMemory) => Err(NoMemory),
        Err(CheckFault::Invalid(_)) => unreachable!(),
    }
}

/// The summary of a block of the market that is made from this number.
pub fn demonstrate<R: Threads + Sync, G: Gate + Sync, L: ledger::Ledger>(
    rt: &R,
    alloc: Global,
    number: u64,
    workers: u32,
    gate: &G,
    steps: &mut Steps<L>,
) -> Result<Text, Stop>
    requires { Takes Setting.Workers workers }
    ensures found { (before : Option (List ℕ)) → Found (Command.Demo number workers) before before result }
    ensures calm { IsErrOf result Stop.ReadFault → ⊥ }
    ensures counted { steps.new ≤ steps.old + most_clearing_searches }
    ensures rising { steps.old ≤ steps.new }
{
    let ledger = demo_state(alloc)?;
    let numbers = numbers_of(workers);
    let made = made(rt, alloc, &ledger, number, numbers, gate, steps)?;
    let checked = checked(alloc, &ledger, &made.block)?;
    let outcomes = made.outcomes.to_list(alloc)?;
    Ok(demo_lines(alloc, number, &outcomes, &checked, &made.block.header)?)
}
