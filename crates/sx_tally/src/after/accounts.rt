//! The accounts of a ledger after a body.

ghost use Rattle.std.specs.Prelude.{◌≡◌, ℕ, ◌+◌, ◌-◌, ◌<◌, ◌≤◌, ◌^◌, ◌⊎◌, List, length, slice_index, IsBitSet};
ghost use Rattle.sx_base.specs.Ranges.{most_seq};
ghost use Rattle.sx_tally.specs.Accounts.{IsAccountAfter, StandsAt, with_known_accounts};
ghost use Rattle.sx_tally.specs.Postings.{HasRows, credit_at, debit_at};
ghost use Rattle.sx_tally.specs.Tally.{IsTally, IsTallyOfBody};
ghost use Rattle.sx_ledger.specs.Body.{IsAdmissibleIn};
ghost use Rattle.sx_ledger.specs.Ledger.{IsLedger, balance_at};
ghost use Rattle.sx_tx.specs.declared.tx.Tx.{Tx as Transaction};
ghost use Rattle.sx_tx.specs.Window.{Next, open_numbers};

use crate::Tally;
use crate::postings::Postings;
use std::alloc::Global;
use std::mem;
use sx_base::{BalanceVec, Balances};
use sx_ledger::{Account, Accounts, Ledger, Parts};

// A balance with these credits and debits.
fn balance_after(balance: u64, debits: u128, credits: u128) -> u64
    requires covers { debits ≤ balance + credits }
    requires fits { (balance + credits) - debits < 2 ^ 64 }
    ensures { result ≡ (balance + credits) - debits }
{
    if debits <= credits {
        balance + (credits - debits) as u64
    } else {
        balance - (debits - credits) as u64
    }
}

// Adds to balances what is credited to the account at a place, and takes from them what is debited.
fn post_all(balances: &mut [u64], postings: &Postings, place: usize)
    requires place { place < length postings.now.starts.items }
    requires rows { HasRows postings.now (length postings.now.starts.items) (length balances.old) }
    requires covers { (asset : ℕ) → asset < length balances.old
        → debit_at postings.now place asset ≤ slice_index balances.old asset + credit_at postings.now place asset }
    requires fits { (asset : ℕ) → asset < length balances.old
        → (slice_index balances.old asset
        + credit_at postings.now place asset) - debit_at postings.now place asset < 2 ^ 64 }
    ensures as_many { length balances.new ≡ length balances.old }
    ensures each { (asset : ℕ) → asset < length balances.old
        → slice_index balances.new asset ≡ (slice_index balances.old asset
        + credit_at postings.now place asset) - debit_at postings.now place asset }
{
    for asset in 0..balances.len() {
        let debits = postings.debited(place, asset);
        let credits = postings.credited(place, asset);
        balances[asset] = balance_after(balances[asset], debits, credits);
    }
}

// The same with the balances of an account.
fn post_account(alloc: Global, account: &mut Account, postings: &Postings, place: usize)
    requires place { place < length postings.now.starts.items }
    requires rows { HasRows postings.now (length postings.now.starts.items) (length account.old.balances) }
    requires covers { (asset : ℕ) → asset < length account.old.balances
        → debit_at postings.now place asset ≤ balance_at asset account.old + credit_at postings.now place asset }
    requires fits { (asset : ℕ) → asset < length account.old.balances
        → (balance_at asset account.old
        + credit_at postings.now place asset) - debit_at postings.now place asset < 2 ^ 64 }
    ensures id { account.new.id ≡ account.old.id }
    ensures window { account.new.window ≡ account.old.window }
    ensures as_many { length account.new.balances ≡ length account.old.balances }
    ensures each { (asset : ℕ) → asset < length account.old.balances
        → balance_at asset account.new ≡ (balance_at asset account.old
        + credit_at postings.now place asset) - debit_at postings.now place asset }
{
    let none = Balances::of(BalanceVec::new(alloc));
    let mut balances = mem::replace(&mut account.balances, none).into_items();
    post_all(&mut balances, postings, place);
    account.balances = Balances::of(balances);
}

// Gives an account the window and the balances that the sums at its place make.
fn change_account(alloc: Global, version: u8, account: &mut Account, place: usize, tally: &Tally)
    requires version { (version ≡ 1) ⊎ (version ≡ 2) }
    requires last { account.old.window.last ≤ most_seq }
    requires place { place < length tally.now.used.items }
    requires rows { HasRows tally.now.postings (length tally.now.used.items) (length account.old.balances) }
    requires in_range { (i : ℕ) → i < open_numbers → IsBitSet (slice_index tally.now.used.items place) i
        → account.old.window.last + 1 + i ≤ most_seq }
    requires covers { (asset : ℕ) → asset < length account.old.balances
        → debit_at tally.now.postings place asset ≤ balance_at asset account.old
        + credit_at tally.now.postings place asset }
    requires fits { (asset : ℕ) → asset < length account.old.balances
        → (balance_at asset account.old
        + credit_at tally.now.postings place asset) - debit_at tally.now.postings place asset < 2 ^ 64 }
    ensures id { account.new.id ≡ account.old.id }
    ensures window { account.new.window ≡ Next version account.old.window (slice_index tally.now.used.items place) }
    ensures as_many { length account.new.balances ≡ length account.old.balances }
    ensures each { (asset : ℕ) → asset < length account.old.balances
        → balance_at asset account.new ≡ (balance_at asset account.old
        + credit_at tally.now.postings place asset) - debit_at tally.now.postings place asset }
{
    account.window = account.window.next(version, tally.used()[place]);
    let postings = tally.postings();
    if postings.is_named(place) {
        post_account(alloc, account, postings, place);
    }
}

/// Makes the account at a place of a ledger what it is after the body of a block with this tally: the
/// one that [`precheck`](crate::precheck) answers. The account changes in place, and no other is looked
/// at, so that accounts may change in any order and at the same time. The version is that of the ledger.
pub fn apply_to_account(
    alloc: Global,
    version: u8,
    account: &mut Account,
    place: usize,
    tally: &Tally,
)
    requires { StandsAt version place account.old tally.now }
    ensures { IsAccountAfter version place tally.now account.old account.new }
{
    change_account(alloc, version, account, place, tally);
}

// The parts of the ledger, with each account that is there as it is after the body. Accounts change in
// place.
pub fn apply_to_known(alloc: Global, ledger: Ledger, tally: &Tally) -> Parts
    requires body { IsTallyOfBody ledger tally.now }
    ensures known { (txs : List Transaction) → IsAdmissibleIn 2 ledger txs → IsTally ledger txs tally.now
        → result ≡ with_known_accounts ledger txs }
    ensures kept { IsLedger ledger }
{
    let Parts {
        version,
        height,
        prices,
        rounding,
        accounts,
        offers,
    } = ledger.into_parts();
    let mut accounts = accounts.into_items();
    for place in 0..accounts.len() {
        let account = &mut accounts[place];
        apply_to_account(alloc, version, account, place, tally);
    }
    Parts {
        version,
        height,
        prices,
        rounding,
        accounts: Accounts::of(accounts),
        offers,
    }
}
