//! Accounts that a body creates. They are merged with the known ones in the memory of these, from the back: the new ones
//! first get free places behind the others, and then the last free place is filled again and again, with the last
//! account of either kind.

ghost use Rattle.std.specs.Prelude.{◌≡◌, ◌++◌, ◌-◌, ◌≤◌, ℕ, length, map, replicate, take, IfOk, OnOk};
ghost use Rattle.std.specs.List.Sorted.{IsNonDecreasingBy, IsPermutation};
ghost use Rattle.sx_tally.specs.Accounts.{fresh};

use std::alloc::Global;
use sx_base::{AccountId, BalanceVec, Balances};
use sx_bytes::NoMemory;
use sx_ledger::Account;
use sx_tx::Window;

// An account that used no sequence number and holds nothing.
fn new_account(alloc: Global, id: u64, assets: usize) -> Result<Account, NoMemory>
    ensures { IfOk result (λ account. account ≡ fresh assets id) }
{
    Ok(Account {
        id: AccountId(id),
        window: Window { last: 0, used: 0 },
        balances: Balances::of(BalanceVec::from_elem(alloc, 0, assets)?),
    })
}

// Puts free places after the accounts: accounts without balances, which take no memory elsewhere.
fn push_free(alloc: Global, accounts: &mut Vec<Account>, count: usize) -> Result<(), NoMemory>
    ensures { OnOk result (accounts.new.items ≡ accounts.old.items ++ replicate count (fresh 0 0)) }
{
    accounts.reserve_exact(count)?;
    for _ in 0..count {
        accounts.push(new_account(alloc, 0, 0)?)?;
    }
    Ok(())
}

// Merges new accounts of these ids with the known ones, behind which there is a free place for each. Where both are in
// order, so are all.
fn merge_new(
    alloc: Global,
    accounts: &mut [Account],
    ids: &[u64],
    assets: usize,
) -> Result<(), NoMemory>
    requires free { length ids.now ≤ length accounts.old }
    ensures { OnOk result (IsPermutation (take (length accounts.old - length ids.now) accounts.old
        ++ map (fresh assets) ids.now) accounts.new) }
{
    let mut left = ids.len();
    for filled in 0..accounts.len() {
        if left == 0 {
            return Ok(());
        }
        let place = accounts.len() - 1 - filled;
        let known = place + 1 - left;
        let id = ids[left - 1];
        if known > 0 && accounts[known - 1].id.0 > id {
            accounts.swap(known - 1, place);
        } else {
            accounts[place] = new_account(alloc, id, assets)?;
            left -= 1;
        }
    }
    Ok(())
}

// The accounts, with those that are created, by id.
pub fn with_created(
    alloc: Global,
    accounts: Vec<Account>,
    ids: &[u64],
    assets: usize,
) -> Result<Vec<Account>, NoMemory>
    ensures all { IfOk result (λ after. IsPermutation (accounts.items ++ map (fresh assets) ids.now) after.items) }
    ensures by_id { IfOk result (λ after. IsNonDecreasingBy (λ account. account.id.0) after.items) }
{
    let mut ids = Vec::from_slice(alloc, ids)?;
    ids.sort_unstable();
    let mut accounts = accounts;
    push_free(alloc, &mut accounts, ids.len())?;
    merge_new(alloc, &mut accounts, &ids, assets)?;
    // known accounts stand by id, so all do by now, and this pass moves none
    accounts.sort_by_key(|account| account.id.0)?;
    Ok(accounts)
}
