//! A block is made of transactions.

ghost use Rattle.std.specs.Prelude.{◌≡◌, ◌<◌, ◌≤◌, IfSome, length};
ghost use Rattle.sx_block.specs.Block.{IsBlock};
ghost use Rattle.sx_block.specs.Validity.{IsValid};
ghost use Rattle.sx_ledger.specs.Body.{IsAdmissible};
ghost use Rattle.sx_ledger.specs.Ledger.{assets_of, most_height};
ghost use Rattle.sx_tx.specs.Transactions.{most_transactions};

use crate::records::record;
use anyhow::{Result, bail};
use std::alloc::Global;
use std::marker::Brand;
use std::rt::Clock;
use std::sync::ledger::{self, Blank};
use std::thread::Threads;
use std::time::Instant;
use sx_base::Source;
use sx_block::{Block, read_block, validity_laws};
use sx_check::check;
use sx_clear::clear;
use sx_ledger::Ledger;
use sx_net::Steps;
use sx_price::Mu;
use sx_record::tag;
use sx_state::read_state;
use sx_tx::TxList;

pub const NAME: &str = "clear";

pub const WHAT: &str =
    "makes a block, in ROUNDS rounds, of the transactions of the valid block of version 1 that is read after its state";

// A ledger, and a block that is valid for it.
#[derive(Drop)]
struct Input {
    ledger: Ledger,
    block: Block,
}

fn read_input<S: Source>(alloc: Global, source: &mut S) -> Option<Input>
    ensures form { IfSome result (λ input. IsBlock input.block) }
{
    let state = record(alloc, source, tag::STATE)?;
    let block = record(alloc, source, tag::BLOCK)?;
    Some(Input {
        ledger: read_state(alloc, state.payload.items()).ok()?,
        block: read_block(alloc, block.payload.items()).ok()?,
    })
}

fn valid_input<S: Source>(alloc: Global, source: &mut S) -> Option<Input>
    ensures valid { IfSome result (λ input. IsValid input.ledger input.block) }
    ensures first { IfSome result (λ input. input.block.header.version ≡ 1) }
{
    let input = read_input(alloc, source)?;
    if input.block.header.version != 1 {
        return None;
    }
    match check(alloc, &input.ledger, &input.block) {
        Ok(_) => Some(input),
        Err(_) => None,
    }
}

// The transactions of a valid block of version 1 can be cleared again.
fn can_clear(ledger: &Ledger, block: &Block)
    requires valid { IsValid ledger.now block.now }
    requires first { block.now.header.version ≡ 1 }
    ensures admissible { IsAdmissible ledger.now block.now.txs }
    ensures few { length block.now.txs ≤ most_transactions }
    ensures below_last { ledger.now.height < most_height }
    ensures prices { length block.now.header.prices ≡ assets_of ledger.now }
{
    validity_laws();
}

// The nanoseconds that it takes to make a block of these transactions.
fn clear_once<R: Threads + Sync + Clock + AllocGlobal, L: ledger::Ledger>(
    rt: &R,
    ledger: &Ledger,
    txs: TxList,
    mu: Mu,
    rounds: u32,
    blank: Blank,
) -> Result<u128>
    requires admissible { IsAdmissible ledger.now txs }
    requires few { length txs ≤ most_transactions }
    requires below_last { ledger.now.height < most_height }
    requires name { blank.name ≡ L.name }
    requires parts { blank.parts ≡ L.parts }
    requires some { 0 < blank.parts }
{
    let mut steps = Steps::<L>::new(blank);
    let start = Instant::now(rt)?;
    let _block = clear(rt, rt.alloc(), ledger, txs, mu, rounds, &mut steps)?;
    Ok(start.elapsed(rt)?.as_nanos())
}

/// Reads a state and a valid block of version 1, and prints the time in nanoseconds that it takes to make a block of
/// the same transactions with the same margin.
pub fn measure<R: Threads + Sync + Clock + Print + AllocGlobal, S: Source>(
    rt: &R,
    source: &mut S,
    rounds: u32,
) -> Result<()> {
    let Some(Input { ledger, block }) = valid_input(rt.alloc(), source) else {
        bail!("no state, and no valid block of version 1");
    };
    can_clear(&ledger, &block);
    let Block { header, txs } = block;
    let taken = clear_once::<R, Brand>(rt, &ledger, txs, header.mu, rounds, Blank::new(1))?;
    println!(rt; "{NAME} {rounds} {taken} ns")?;
    Ok(())
}
