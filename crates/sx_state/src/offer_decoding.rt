//! Decoding the offers of a long state by several threads, while other ones read the accounts before them.
//!
//! Each account takes as many bytes as the other ones, so where the offers begin follows from the number of accounts. An
//! offer takes the same number of bytes always, so that the offers are cut into parts, which the threads decode each into
//! its part of one vector, whatever order the offers stand in. Where one part ends where the next one was begun, all side
//! by side are what the bytes say, and where the accounts end where the offers were begun, these are the offers of the
//! state. Where anything is amiss, one thread reads the offers, and so finds the first fault.

ghost use Rattle.std.specs.Prelude.{◌≡◌, ◌*◌, ◌≤◌, true, length, IfOk, IfSome};
ghost use Rattle.std.specs.Thread.{IsSync};
ghost use Rattle.sx_base.specs.Ranges.{most_assets};
ghost use Rattle.sx_bytes.specs.Grammar.{MayDecodeOrStray};
ghost use Rattle.sx_state.specs.Decoding.{account_list_at};
ghost use Rattle.sx_state.specs.SoundOffers.{AreAhead, AreOffersAt};

use crate::account_decoding::account_list_by;
use crate::offer_reading::offer;
use crate::sizes::{OFFER_BYTES, account_width};
use std::alloc::Global;
use std::thread::Threads;
use sx_bytes::{Form, FormFault, ReadError, Reader, Short};
use sx_fork::fork_mut;
use sx_ledger::{Account, Ledger, Offer, Offers};

// Offers that are decoded before it is known whether they stand in order and have owners, and where they end.
#[derive(Drop)]
pub struct Ahead {
    pub offers: Offers,
    pub end: usize,
}

// Decodes the offers from a place on, one into each slot, and answers where they end.
fn fill(payload: &[u8], place: usize, assets: u8, offers: &mut [Offer]) -> Result<usize, FormFault>
    requires some { 1 ≤ assets }
    requires few { assets ≤ most_assets }
    ensures { IfOk result (λ end. AreOffersAt payload.now assets place (length offers.old) offers.new end) }
{
    let mut from = Reader::at(payload, place)?;
    for slot in 0..offers.len() {
        offers[slot] = offer(&mut from, assets)?;
    }
    Ok(from.place())
}

// The same by so many threads.
fn fill_by<R: Threads + Sync>(
    rt: &R,
    threads: usize,
    payload: &[u8],
    place: usize,
    assets: u8,
    offers: &mut [Offer],
) -> Result<usize, FormFault>
    requires some_thread { 1 ≤ threads }
    requires some { 1 ≤ assets }
    requires few { assets ≤ most_assets }
    ensures { IfOk result (λ end. AreOffersAt payload.now assets place (length offers.old) offers.new end) }
{
    if threads < 2 {
        return fill(payload, place, assets, offers);
    }
    let others = threads - 1;
    let share = offers.len() / threads;
    let middle = place.saturating_add(share.saturating_mul(OFFER_BYTES as usize));
    let (front, back) = offers.split_at_mut(share);
    let (one, other) = fork_mut(
        rt,
        others < 2,
        &mut || -> Result<usize, FormFault>
            requires { (1 ≤ assets) × (assets ≤ most_assets) }
            ensures { IfOk result (λ end. AreOffersAt payload.entry.now assets place (length front.entry.now) front.exit.now end) }
        { fill(payload, place, assets, front) },
        &mut || -> Result<usize, FormFault>
            requires { IsSync R.row × (1 ≤ others) × (1 ≤ assets) × (assets ≤ most_assets) }
            ensures { IfOk result (λ end. AreOffersAt payload.entry.now assets middle (length back.entry.now) back.exit.now end) }
        { fill_by(rt, others, payload, middle, assets, back) },
    );
    if one? != middle {
        let at = middle as u64;
        let fault = Form::Short;
        return Err(FormFault { at, fault });
    }
    other
}

// So many offers from a place on, and where they end. No memory is taken where the bytes are too few for so many.
fn offers_by<R: Threads + Sync>(
    rt: &R,
    threads: usize,
    alloc: Global,
    payload: &[u8],
    place: usize,
    assets: u8,
    count: u32,
) -> Result<(Offers, usize), ReadError>
    requires some_thread { 1 ≤ threads }
    requires some { 1 ≤ assets }
    requires few { assets ≤ most_assets }
    ensures { IfOk result (λ read. AreOffersAt payload.now assets place count read.0 read.1) }
{
    let mut from = Reader::at(payload, place)?;
    // A slot has some offer before its own is decoded: the first one serves.
    let first = offer(&mut from, assets)?;
    let mut offers = vec![in alloc; first; count as usize]?;
    let end = fill_by(rt, threads, payload, place, assets, &mut offers)?;
    Ok((Offers::of(offers), end))
}

// The offers at a place of the payload: how many there are, and each of them. Memory grows with what the bytes left can
// hold, and not with what the count claims.
fn offers_ahead<R: Threads + Sync>(
    rt: &R,
    threads: usize,
    alloc: Global,
    payload: &[u8],
    begin: usize,
    assets: u8,
) -> Result<Ahead, ReadError>
    requires some_thread { 1 ≤ threads }
    requires some { 1 ≤ assets }
    requires few { assets ≤ most_assets }
    ensures { IfOk result (λ ahead. AreAhead assets (record { bytes = payload.now; place = begin }) ahead.offers ahead.end) }
{
    let mut from = Reader::at(payload, begin)?;
    let count = from.field_u32(0, Ledger::MOST_OFFERS, Form::TooMany)?;
    let place = from.place();
    from.raw(count as usize * OFFER_BYTES as usize)?;
    let (offers, end) = offers_by(rt, threads, alloc, payload, place, assets, count)?;
    Ok(Ahead { offers, end })
}

// How many accounts and offers there seem to be, and where the offers seem to begin.
#[derive(Clone, Copy)]
pub struct Seen {
    pub accounts: u32,
    pub offers: u32,
    pub begin: usize,
}

// What seems to stand at the place, where the number of accounts says it.
pub fn entries_seen(from: &mut Reader, version: u8, assets: u8) -> Result<Seen, Short>
    ensures { from.new ≡ from.old }
{
    let mut seen = Reader::at(from.bytes(), from.place())?;
    let accounts = seen.get_u32()?;
    seen.raw(accounts as usize * account_width(version, assets))?;
    let begin = seen.place();
    let offers = seen.get_u32()?;
    Ok(Seen {
        accounts,
        offers,
        begin,
    })
}

// The accounts at the place, by so many threads, and the offers after them, which other threads decode meanwhile, where
// they begin at the place given.
pub fn accounts_and_ahead<R: Threads + Sync>(
    rt: &R,
    threads: usize,
    account_threads: usize,
    alloc: Global,
    from: &mut Reader,
    begin: usize,
    version: u8,
    assets: u8,
) -> Result<(Vec<Account>, Option<Ahead>), ReadError>
    requires some_thread { 1 ≤ threads }
    requires some_account_thread { 1 ≤ account_threads }
    requires some { 1 ≤ assets }
    requires few { assets ≤ most_assets }
    ensures exact { MayDecodeOrStray (λ read. read.0.items) (account_list_at version assets from.old) from.new result }
    ensures ahead { IfOk result (λ read. IfSome read.1 (λ ahead. AreAhead assets from.new ahead.offers ahead.end)) }
{
    let payload = from.bytes();
    let (ahead, accounts) = fork_mut(
        rt,
        account_threads == 1,
        &mut || -> Result<Ahead, ReadError>
            requires { IsSync R.row × (1 ≤ threads) × (1 ≤ assets) × (assets ≤ most_assets) }
            ensures { IfOk result (λ ahead. AreAhead assets (record { bytes = payload.entry.now; place = begin }) ahead.offers ahead.end) }
        { offers_ahead(rt, threads, alloc, payload, begin, assets) },
        &mut || -> Result<Vec<Account>, ReadError>
            requires { IsSync R.row × (1 ≤ account_threads) }
            ensures exact { MayDecodeOrStray (λ v. v.items) (account_list_at version assets from.entry.now) from.exit.now result }
            ensures same { from.exit.now.bytes ≡ from.entry.now.bytes }
        { account_list_by(rt, account_threads, alloc, from, version, assets) },
    );
    let accounts = accounts?;
    if from.place() != begin {
        return Ok((accounts, None));
    }
    Ok((accounts, ahead.ok()))
}

// Moves a reader on to a later place. Whether it is there then.
pub fn move_to(from: &mut Reader, place: usize) -> bool
    ensures there { result ≡ true → from.new ≡ record { bytes = from.old.bytes; place = place } }
    ensures same { from.new.bytes ≡ from.old.bytes }
    ensures onward { from.old.place ≤ from.new.place }
{
    let more = place.saturating_sub(from.place());
    from.raw(more).is_ok() && from.place() == place
}
