//! A copy of a ledger, made in the memory of one that is no longer needed.

ghost use Rattle.std.specs.Prelude.{◌≡◌, length, IfOk, OnOk};

use std::alloc::Global;
use std::mem;
use sx_base::{BalanceVec, Balances};
use sx_bytes::{ListOf, NoMemory};
use sx_ledger::{Account, Accounts, Ledger, Parts};

// The values of a list, in the memory of another one.
fn refilled<T: Copy>(spare: ListOf<T>, list: &ListOf<T>) -> Result<ListOf<T>, NoMemory>
    ensures { IfOk result (λ copy. copy ≡ list.now) }
{
    let mut copy = spare.into_items();
    copy.clear();
    copy.extend_from_slice(list.items())?;
    Ok(ListOf::of(copy))
}

// Balances, in the memory of others.
fn refilled_balances(spare: Balances, balances: &Balances) -> Result<Balances, NoMemory>
    ensures { IfOk result (λ copy. copy ≡ balances.now) }
{
    let mut copy = spare.into_items();
    copy.clear();
    copy.extend_from_slice(balances.items())?;
    Ok(Balances::of(copy))
}

// Makes an account a copy of another one.
fn refill_account(alloc: Global, spare: &mut Account, account: &Account) -> Result<(), NoMemory>
    ensures { OnOk result (spare.new ≡ account.now) }
{
    let none = Balances::of(BalanceVec::new(alloc));
    let balances = mem::replace(&mut spare.balances, none);
    spare.id = account.id;
    spare.window = account.window;
    spare.balances = refilled_balances(balances, &account.balances)?;
    Ok(())
}

// Makes each account a copy of the one at its place.
fn refill_each(alloc: Global, spare: &mut [Account], accounts: &[Account]) -> Result<(), NoMemory>
    requires as_many { length spare.old ≡ length accounts.now }
    ensures { OnOk result (spare.new ≡ accounts.now) }
{
    for place in 0..accounts.len() {
        refill_account(alloc, &mut spare[place], &accounts[place])?;
    }
    Ok(())
}

// As many accounts as there are, those that are new with no balances yet.
fn resized(
    alloc: Global,
    spare: Vec<Account>,
    accounts: &[Account],
) -> Result<Vec<Account>, NoMemory>
    ensures { IfOk result (λ list. length list.items ≡ length accounts.now) }
{
    let mut list = spare;
    list.truncate(accounts.len());
    for place in list.len()..accounts.len() {
        list.push(Account {
            id: accounts[place].id,
            window: accounts[place].window,
            balances: Balances::of(BalanceVec::new(alloc)),
        })?;
    }
    Ok(list)
}

// The accounts, in the memory of others.
fn refilled_accounts(
    alloc: Global,
    spare: Accounts,
    accounts: &Accounts,
) -> Result<Accounts, NoMemory>
    ensures { IfOk result (λ copy. copy ≡ accounts.now) }
{
    let mut copy = resized(alloc, spare.into_items(), accounts.items())?;
    refill_each(alloc, &mut copy, accounts.items())?;
    Ok(Accounts::of(copy))
}

// A ledger of its own with the same parts, in the memory of another one, if there is one.
pub(crate) fn copied(
    alloc: Global,
    ledger: &Ledger,
    spare: Option<Ledger>,
) -> Result<Ledger, NoMemory>
    ensures { IfOk result (λ copy. copy ≡ ledger.now) }
{
    let Some(spare) = spare else {
        return ledger.copy();
    };
    let Parts {
        version: _,
        height: _,
        prices,
        rounding,
        accounts,
        offers,
    } = spare.into_parts();
    let parts = ledger.parts();
    Ok(Ledger::of(Parts {
        version: parts.version,
        height: parts.height,
        prices: refilled(prices, &parts.prices)?,
        rounding: refilled_balances(rounding, &parts.rounding)?,
        accounts: refilled_accounts(alloc, accounts, &parts.accounts)?,
        offers: refilled(offers, &parts.offers)?,
    }))
}
