//! The ledger after a body.

ghost use Rattle.std.specs.Prelude.{◌≡◌, ◌≤◌, List, map, IfOk};
ghost use Rattle.sx_tally.specs.Accounts.{IsAccountAfter, StandsAt, with_known_accounts};
ghost use Rattle.sx_tally.specs.OfferChanges.{changed_by};
ghost use Rattle.sx_tally.specs.Tally.{IsTally, IsTallyOfBody};
ghost use Rattle.sx_ledger.specs.declared.parts.Parts.{Parts as Ledgers};
ghost use Rattle.sx_ledger.specs.Body.{IsAdmissibleIn, account_after, body_after, offers_after as all_offers};
ghost use Rattle.sx_ledger.specs.Ledger.{IsLedger};
ghost use Rattle.sx_spread.specs.Accounts.{AreAccounts};
ghost use Rattle.sx_tx.specs.declared.tx.Tx.{Tx as Transaction};

use crate::sharing::sharers;
use std::alloc::Global;
use std::thread::Threads;
use sx_bytes::NoMemory;
use sx_fork::for_each_mut;
use sx_ledger::{Account, Accounts, Ledger, Parts};
use sx_tally::{OfferChange, Tally, apply_to_account, complete_accounts};

// Makes each account what it is after the body, in at most so many threads.
fn change_all<R: Threads + Sync>(
    rt: &R,
    alloc: Global,
    version: u8,
    tally: &Tally,
    threads: usize,
    accounts: &mut [Account],
)
    requires some { 1 ≤ threads }
    requires accounts { AreAccounts version accounts.old tally.now }
    ensures { (parts : Ledgers) (txs : List Transaction) → IsLedger parts → parts.version ≡ version
        → parts.accounts ≡ accounts.old → IsAdmissibleIn 2 parts txs → IsTally parts txs tally.now
        → accounts.new ≡ map (account_after parts txs) accounts.old }
{
    for_each_mut(
        rt,
        accounts,
        threads,
        &|place: usize, account: &mut Account|
            requires { StandsAt version place account.now tally.now }
            ensures { IsAccountAfter version place tally.entry.now account.entry.now account.exit.now }
        {
            apply_to_account(alloc, version, account, place, tally);
        },
    );
}

// The parts of the ledger, with each account that is there as it is after the body. Accounts change in place.
fn known_after<R: Threads + Sync>(
    rt: &R,
    alloc: Global,
    ledger: Ledger,
    tally: &Tally,
    workers: u32,
) -> Parts
    requires body { IsTallyOfBody ledger tally.now }
    requires some { 1 ≤ workers }
    ensures known { (txs : List Transaction) → IsAdmissibleIn 2 ledger txs → IsTally ledger txs tally.now
        → result ≡ with_known_accounts ledger txs }
    ensures kept { IsLedger ledger }
{
    let Parts {
        version,
        height,
        prices,
        rounding,
        accounts,
        offers,
    } = ledger.into_parts();
    let mut accounts = accounts.into_items();
    let threads = sharers(accounts.len(), workers);
    change_all(rt, alloc, version, tally, threads, &mut accounts);
    Parts {
        version,
        height,
        prices,
        rounding,
        accounts: Accounts::of(accounts),
        offers,
    }
}

/// The ledger after the body of a block, before anything trades, from the tally of the body and from what it changes
/// the offers to: what `precheck` and `offers_after` of `sx_tally` answer. At most `workers` threads,
/// each with a part of the accounts, change them in place. The accounts that are created come in on one thread.
///
/// How many workers there are does not change the answer: it is that of [`apply_accounts`](sx_tally::apply_accounts).
/// Where there are few accounts, no thread is started. At `NoMemory`, which is the only error, the ledger is gone.
pub fn par_apply_accounts<R: Threads + Sync>(
    rt: &R,
    alloc: Global,
    ledger: Ledger,
    tally: &Tally,
    change: OfferChange,
    workers: u32,
) -> Result<Ledger, NoMemory>
    requires body { IsTallyOfBody ledger tally.now }
    requires offers { (txs : List Transaction) → IsAdmissibleIn 2 ledger txs → IsTally ledger txs tally.now
        → changed_by change ledger.offers ≡ all_offers ledger txs }
    requires some_worker { 1 ≤ workers }
    ensures after { (txs : List Transaction) → IsAdmissibleIn 2 ledger txs → IsTally ledger txs tally.now
        → IfOk result (λ after. after ≡ body_after ledger txs) }
    ensures kept { IsLedger ledger }
{
    let known = known_after(rt, alloc, ledger, tally, workers);
    complete_accounts(alloc, known, tally, change)
}
