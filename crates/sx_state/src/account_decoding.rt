//! Decoding the accounts of a long state by several threads.
//!
//! Each account takes as many bytes as the other ones, so a list of accounts is cut into parts, each of which a thread
//! decodes. Where one part ends where the next one was begun, and the first account of that may stand after the last one of
//! the part before, all side by side are what the bytes say. Where anything is amiss, one thread reads the accounts, and so
//! finds the first fault.

ghost use Rattle.std.specs.Prelude.{◌≡◌, ◌*◌, ◌≤◌, true, IfOk, IfSome, Ok};
ghost use Rattle.std.specs.Thread.{IsSync};
ghost use Rattle.sx_bytes.specs.Grammar.{MayDecodeOrStray};
ghost use Rattle.sx_state.specs.Decoding.{account_list_at};
ghost use Rattle.sx_state.specs.SoundAccounts.{AreAccountsAt, IsBelow};

use crate::account_reading::{account_list, accounts, with_spare};
use crate::offer_decoding::move_to;
use crate::reading::refusal;
use crate::sizes::account_width;
use std::alloc::Global;
use std::thread::Threads;
use sx_bytes::{Form, ReadError, Reader};
use sx_fork::fork_mut;
use sx_ledger::{Account, Ledger};

// Whether accounts may stand after others.
fn follow(front: &[Account], back: &[Account]) -> bool
    ensures { result ≡ true → IsBelow front.now back.now }
{
    match (front.last(), back.first()) {
        (Some(last), Some(first)) => last.id.0 < first.id.0,
        _ => true,
    }
}

// So many accounts from a place on, and where they end. Memory is taken for `room` of them, so that others can be put
// behind them.
fn accounts_from(
    alloc: Global,
    payload: &[u8],
    place: usize,
    version: u8,
    assets: u8,
    count: usize,
    room: usize,
) -> Result<(Vec<Account>, usize), ReadError>
    ensures { IfOk result (λ read. AreAccountsAt payload.now version assets place count read.0.items read.1) }
{
    let mut from = Reader::at(payload, place)?;
    let accounts = accounts(alloc, &mut from, version, assets, count, room)?;
    Ok((accounts, from.place()))
}

// The same by so many threads. The last part is put after those before it, where there is room, so each is moved once.
fn accounts_by<R: Threads + Sync>(
    rt: &R,
    threads: usize,
    alloc: Global,
    payload: &[u8],
    place: usize,
    version: u8,
    assets: u8,
    count: usize,
    room: usize,
) -> Result<(Vec<Account>, usize), ReadError>
    requires some_thread { 1 ≤ threads }
    ensures { IfOk result (λ read. AreAccountsAt payload.now version assets place count read.0.items read.1) }
{
    if threads < 2 {
        return accounts_from(alloc, payload, place, version, assets, count, room);
    }
    let others = threads - 1;
    let share = count / threads;
    let rest = count - share;
    let middle = place.saturating_add(rest.saturating_mul(account_width(version, assets)));
    let (back, front) = fork_mut(
        rt,
        others < 2,
        &mut || -> Result<(Vec<Account>, usize), ReadError>
            ensures { IfOk result (λ read. AreAccountsAt payload.entry.now version assets middle share read.0.items read.1) }
        { accounts_from(alloc, payload, middle, version, assets, share, share) },
        &mut || -> Result<(Vec<Account>, usize), ReadError>
            requires { IsSync R.row × (1 ≤ others) }
            ensures { IfOk result (λ read. AreAccountsAt payload.entry.now version assets place rest read.0.items read.1) }
        {
            accounts_by(
                rt, others, alloc, payload, place, version, assets, rest, room,
            )
        },
    );
    let (mut front, met) = front?;
    let (mut back, end) = back?;
    if met != middle || !follow(&front, &back) {
        return Err(refusal(middle, Form::Order));
    }
    front.append(&mut back)?;
    Ok((front, end))
}

// The accounts at a place of the payload: how many there are, and each of them; and where they end. Memory grows with
// what the bytes left can hold, and not with what the count claims.
fn accounts_ahead<R: Threads + Sync>(
    rt: &R,
    threads: usize,
    alloc: Global,
    payload: &[u8],
    begin: usize,
    version: u8,
    assets: u8,
) -> Result<(Vec<Account>, usize), ReadError>
    requires some_thread { 1 ≤ threads }
    ensures { IfOk result (λ read. account_list_at version assets (record { bytes = payload.now; place = begin }) ≡ Ok (read.0.items, record { bytes = payload.now; place = read.1 })) }
{
    let mut from = Reader::at(payload, begin)?;
    let count = from.field_u32(0, Ledger::MOST_ACCOUNTS, Form::TooMany)? as usize;
    let place = from.place();
    from.raw(count * account_width(version, assets))?;
    let room = with_spare(count);
    accounts_by(
        rt, threads, alloc, payload, place, version, assets, count, room,
    )
}

// The accounts at the place, or none where anything is amiss.
fn sound_accounts<R: Threads + Sync>(
    rt: &R,
    threads: usize,
    alloc: Global,
    from: &mut Reader,
    version: u8,
    assets: u8,
) -> Option<Vec<Account>>
    requires some_thread { 1 ≤ threads }
    ensures sound { IfSome result (λ accounts. account_list_at version assets from.old ≡ Ok (accounts.items, from.new)) }
    ensures same { from.new.bytes ≡ from.old.bytes }
    ensures onward { from.old.place ≤ from.new.place }
{
    let (payload, begin) = (from.bytes(), from.place());
    let Ok((accounts, end)) = accounts_ahead(rt, threads, alloc, payload, begin, version, assets)
    else {
        return None;
    };
    if !move_to(from, end) {
        return None;
    }
    Some(accounts)
}

// The accounts at the place by so many threads: how many there are, and each of them. What is amiss is found by
// reading them once more.
pub fn account_list_by<R: Threads + Sync>(
    rt: &R,
    threads: usize,
    alloc: Global,
    from: &mut Reader,
    version: u8,
    assets: u8,
) -> Result<Vec<Account>, ReadError>
    requires some_thread { 1 ≤ threads }
    ensures exact { MayDecodeOrStray (λ v. v.items) (account_list_at version assets from.old) from.new result }
    ensures same { from.new.bytes ≡ from.old.bytes }
    ensures onward { from.old.place ≤ from.new.place }
{
    if threads < 2 {
        return account_list(alloc, from, version, assets);
    }
    let place = from.place();
    if let Some(accounts) = sound_accounts(rt, threads, alloc, from, version, assets) {
        return Ok(accounts);
    }
    from.back(place);
    account_list(alloc, from, version, assets)
}
