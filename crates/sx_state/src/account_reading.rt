//! Reading the accounts of a state.

ghost use Rattle.std.specs.Prelude.{◌≡◌, ◌≤◌, None};
ghost use Rattle.sx_bytes.specs.Grammar.{DecodesOrStrays, MayDecode, MayDecodeOrStray};
ghost use Rattle.sx_state.specs.Decoding.{window_at, account_at, next_account_at, accounts_at, account_list_at};

use crate::reading::{refusal, units};
use crate::sizes::ACCOUNT_BYTES;
use std::alloc::Global;
use sx_base::{Balances, Seq};
use sx_bytes::{Form, FormFault, ReadError, Reader};
use sx_ledger::{Account, Ledger};
use sx_tx::{Window, read_id};

// The window of an account: its last sequence number, and in version 2 the map of those above it.
#[inline]
#[tactic(auto, using(sx_bytes::proofs::DecodingSteps::number_onward))]
fn window(from: &mut Reader, version: u8) -> Result<Window, FormFault>
    ensures exact { DecodesOrStrays (λ x. x) (window_at version from.old) from.new result }
    ensures same { from.new.bytes ≡ from.old.bytes }
    ensures onward { from.old.place ≤ from.new.place }
{
    let last = from.field_u64(0, Seq::LAST, Form::SeqRange)?;
    if version == 1 {
        return Ok(Window { last, used: 0 });
    }
    let at = from.place() as u64;
    let used = from.get_u64()?;
    let window = Window { last, used };
    if !window.fits(version) {
        let fault = Form::UsedRange;
        return Err(FormFault { at, fault });
    }
    Ok(window)
}

// An account. Where it refuses, the reader may stand anywhere after its old place.
#[tactic(auto, unfolding(crate::specs::Decoding::account_at))]
fn account(alloc: Global, from: &mut Reader, version: u8, assets: u8) -> Result<Account, ReadError>
    ensures exact { MayDecodeOrStray (λ account. account) (account_at version assets from.old) from.new result }
    ensures same { from.new.bytes ≡ from.old.bytes }
    ensures onward { from.old.place ≤ from.new.place }
{
    let id = read_id(from)?;
    let window = window(from, version)?;
    let balances = units(alloc, from, assets)?;
    Ok(Account {
        id,
        window,
        balances: Balances::of(balances),
    })
}

/// The account at the place, as a state of this version with `assets` assets has it: its id, its last
/// sequence number, in version 2 the map of those above it that were used, and a balance of each asset.
/// An error is the first fault from left to right, its offset counted from the reader's first byte. The
/// faults are `SeqRange` of the last sequence number, `UsedRange` of the map, where it marks the number
/// after the last one or one that is no sequence number, `AmountRange` of a balance, and `Short`. It may
/// answer `NoMemory` in place of any other answer. A refusal leaves the reader where it was.
pub fn read_account(
    alloc: Global,
    from: &mut Reader,
    version: u8,
    assets: u8,
) -> Result<Account, ReadError>
    ensures { MayDecode (λ account. account) (account_at version assets from.old) from.old from.new result }
{
    let place = from.place();
    let read = account(alloc, from, version, assets);
    if read.is_err() {
        from.back(place);
    }
    read
}

#[tactic(auto, unfolding(crate::specs::Decoding::next_account_at))]
fn next_account(
    alloc: Global,
    from: &mut Reader,
    version: u8,
    assets: u8,
    before: Option<u64>,
) -> Result<Account, ReadError>
    ensures exact { MayDecodeOrStray (λ account. account) (next_account_at version assets before from.old) from.new result }
    ensures same { from.new.bytes ≡ from.old.bytes }
    ensures onward { from.old.place ≤ from.new.place }
{
    let at = from.place();
    let account = account(alloc, from, version, assets)?;
    if let Some(before) = before {
        if account.id.0 <= before {
            return Err(refusal(at, Form::Order));
        }
    }
    Ok(account)
}

// One in so many: by how much more memory is taken than the accounts need, so that created ones move none of them.
const SPARE_PART: usize = 8;

// How many accounts memory is taken for, where there are so many: an eighth more, but never more than a ledger has.
pub fn with_spare(count: usize) -> usize {
    let most = Ledger::MOST_ACCOUNTS as usize;
    count.saturating_add(count / SPARE_PART).min(most)
}

// So many accounts. Memory is taken for `room` of them at first, or for as many as the bytes left can hold and a few
// more, if fewer.
pub fn accounts(
    alloc: Global,
    from: &mut Reader,
    version: u8,
    assets: u8,
    count: usize,
    room: usize,
) -> Result<Vec<Account>, ReadError>
    ensures exact { MayDecodeOrStray (λ v. v.items) (accounts_at version assets count None from.old) from.new result }
    ensures same { from.new.bytes ≡ from.old.bytes }
    ensures onward { from.old.place ≤ from.new.place }
{
    let most = from.left() / ACCOUNT_BYTES as usize;
    let mut accounts = Vec::with_capacity(alloc, room.min(with_spare(most)))?;
    let mut before = None;
    for _ in 0..count {
        let account = next_account(alloc, from, version, assets, before)?;
        before = Some(account.id.0);
        accounts.push(account)?;
    }
    Ok(accounts)
}

// The accounts at the place: how many there are, and each of them.
#[tactic(auto, unfolding(crate::specs::Decoding::account_list_at))]
pub fn account_list(
    alloc: Global,
    from: &mut Reader,
    version: u8,
    assets: u8,
) -> Result<Vec<Account>, ReadError>
    ensures exact { MayDecodeOrStray (λ v. v.items) (account_list_at version assets from.old) from.new result }
    ensures same { from.new.bytes ≡ from.old.bytes }
    ensures onward { from.old.place ≤ from.new.place }
{
    let count = from.field_u32(0, Ledger::MOST_ACCOUNTS, Form::TooMany)? as usize;
    accounts(alloc, from, version, assets, count, with_spare(count))
}
