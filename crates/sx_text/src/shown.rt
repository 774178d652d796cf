//! The text of what a record holds.

ghost use Rattle.std.specs.Prelude.{◌≡◌, ◌≤◌, ◌++◌, IfOk, OnOk, string_bytes};
ghost use Rattle.sx_text.specs.Shown.{IsShowable, shown_text};

use crate::blocks::put_block;
use crate::entries::room;
use crate::gathering::{put_outcomes, put_script};
use crate::hands::{Alone, Hands, Spread};
use crate::states::{put_state, room_of_state};
use crate::text::Text;
use crate::transactions::{TxLine, put_transactions};
use std::alloc::Global;
use std::thread::Threads;
use sx_block::Block;
use sx_bytes::NoMemory;
use sx_ledger::Ledger;
use sx_outcome::{Outcomes, Script};
use sx_tx::TxList;

/// What a record holds, by its tag.
#[derive(Debug, Drop)]
pub enum Shown {
    /// The state between two blocks.
    State(Ledger),
    /// Candidates, in the order in which they come.
    Candidates(TxList),
    /// A block that has the form of one. Whether it is valid for a ledger does not matter.
    Block(Block),
    /// What became of candidates.
    Outcomes(Outcomes),
    /// A script of gathering.
    Script(Script),
}

fn put_shown<H: Hands>(hands: &H, to: &mut String, shown: &Shown) -> Result<(), NoMemory>
    requires ready { H.is_ready }
    requires form { IsShowable shown.now }
    ensures { OnOk result (string_bytes to.new ≡ string_bytes to.old ++ shown_text shown.now) }
{
    match shown {
        Shown::State(ledger) => put_state(hands, to, ledger),
        Shown::Candidates(txs) => put_transactions(hands, to, "candidates", txs.items()),
        Shown::Block(block) => put_block(hands, to, block),
        Shown::Outcomes(outcomes) => put_outcomes(to, outcomes.items()),
        Shown::Script(script) => put_script(to, script),
    }
}

// About how many bytes the text of long lists takes.
fn room_of(alloc: Global, shown: &Shown) -> Result<usize, NoMemory> {
    match shown {
        Shown::State(ledger) => room_of_state(alloc, ledger),
        Shown::Candidates(txs) => room(alloc, &TxLine, txs.items()),
        Shown::Block(block) => room(alloc, &TxLine, block.txs.items()),
        Shown::Outcomes(_) | Shown::Script(_) => Ok(0),
    }
}

fn text_by<H: Hands>(hands: &H, alloc: Global, shown: &Shown) -> Result<Text, NoMemory>
    requires ready { H.is_ready }
    requires form { IsShowable shown.now }
    ensures { IfOk result (λ text. text ≡ shown_text shown.now) }
{
    let mut text = String::with_capacity(alloc, room_of(alloc, shown)?)?;
    put_shown(hands, &mut text, shown)?;
    Ok(Text::of(text))
}

/// The text of what a record holds, a line for each part of it: a price, an account, an offer, a
/// transaction, a pair that trades, an outcome, a turn.
pub fn show(alloc: Global, shown: &Shown) -> Result<Text, NoMemory>
    requires { IsShowable shown.now }
    ensures { IfOk result (λ text. text ≡ shown_text shown.now) }
{
    text_by(&Alone, alloc, shown)
}

/// The text of what a record holds, as [`show`] answers it. As many as `workers` threads write the lines of many
/// accounts, offers or transactions, each a part of them, and the call waits for all of them. Where no thread can be
/// started, this one writes those lines as well. The text is the same for every number of workers.
pub fn par_show<R: Threads + Sync>(
    rt: &R,
    alloc: Global,
    shown: &Shown,
    workers: u32,
) -> Result<Text, NoMemory>
    requires some_worker { 1 ≤ workers }
    requires form { IsShowable shown.now }
    ensures { IfOk result (λ text. text ≡ shown_text shown.now) }
{
    text_by(&Spread { rt, workers }, alloc, shown)
}
