//! The record of a state in pieces.
//!
//! The accounts of a long state are cut into as many parts as there are threads, and so are its offers. Each thread
//! encodes one part of both. A short state is one piece.

ghost use Rattle.std.specs.Prelude.{◌≡◌, ◌≤◌, ◌++◌, IfOk, length};
ghost use Rattle.std.specs.List.{flat_map};
ghost use Rattle.sx_state.specs.Encoding.{account_bytes, offer_bytes, opening_bytes, state_bytes};
ghost use Rattle.sx_record.specs.Frame.{frame, record_bytes};
ghost use Rattle.sx_record.specs.Tags.{state_tag};
ghost use Rattle.sx_run.specs.StateParts.{IsPart, part_at};

use crate::pieces::Pieces;
use std::alloc::Global;
use std::thread::Threads;
use sx_bytes::{NoMemory, Writer, all_of};
use sx_fork::map_indices;
use sx_ledger::{Account, Ledger, Offer};
use sx_record::{tag, write_frame};
use sx_state::{state_length, write_accounts, write_offers, write_opening, write_state};

// How many accounts and offers are worth a thread of their own.
const WORTH_A_THREAD: u32 = 8_192;

// How many threads encode at most.
const MOST_THREADS: u32 = 4;

// How many bytes an account takes at most, without its balances.
const ACCOUNT_BYTES: usize = 24;

// How many bytes a balance takes.
const BALANCE_BYTES: usize = 8;

// How many bytes an offer takes.
const OFFER_BYTES: usize = 34;

// A part of the accounts and a part of the offers, encoded.
#[derive(Drop)]
struct Part {
    accounts: Writer,
    offers: Writer,
}

// How many threads a ledger is worth. It is cut into as many parts.
fn threads_for(ledger: &Ledger) -> usize {
    let threads = (ledger.accounts() + ledger.offers()) / WORTH_A_THREAD;
    threads.min(MOST_THREADS) as usize
}

// The part at a place, where entries are cut into so many parts.
fn part_of<T>(entries: &[T], parts: usize, place: usize) -> &[T]
    requires { 1 ≤ parts }
    ensures { result.now ≡ part_at entries.now parts place }
{
    let size = entries.len().div_ceil(parts);
    let start = place.saturating_mul(size).min(entries.len());
    let (_, rest) = entries.split_at(start);
    let (part, _) = rest.split_at(size.min(rest.len()));
    part
}

fn encoded_accounts(
    alloc: Global,
    ledger: &Ledger,
    accounts: &[Account],
) -> Result<Writer, NoMemory>
    ensures { IfOk result (λ told. told ≡ flat_map (account_bytes ledger.now.version) accounts.now) }
{
    let width = ACCOUNT_BYTES + BALANCE_BYTES * ledger.assets() as usize;
    let mut told = Writer::new(alloc);
    told.reserve(accounts.len().saturating_mul(width))?;
    write_accounts(&mut told, ledger.version(), accounts)?;
    Ok(told)
}

fn encoded_offers(alloc: Global, offers: &[Offer]) -> Result<Writer, NoMemory>
    ensures { IfOk result (λ told. told ≡ flat_map offer_bytes offers.now) }
{
    let mut told = Writer::new(alloc);
    told.reserve(offers.len().saturating_mul(OFFER_BYTES))?;
    write_offers(&mut told, offers)?;
    Ok(told)
}

fn encoded_part(
    alloc: Global,
    ledger: &Ledger,
    parts: usize,
    place: usize,
) -> Result<Part, NoMemory>
    requires { 1 ≤ parts }
    ensures { IfOk result (IsPart ledger.now parts place) }
{
    let held = ledger.parts();
    let accounts = part_of(held.accounts.items(), parts, place);
    let offers = part_of(held.offers.items(), parts, place);
    Ok(Part {
        accounts: encoded_accounts(alloc, ledger, accounts)?,
        offers: encoded_offers(alloc, offers)?,
    })
}

// All parts, in their order. A thread encodes each of them.
fn encoded_parts<R: Threads + Sync>(
    rt: &R,
    alloc: Global,
    ledger: &Ledger,
    parts: usize,
) -> Result<Vec<Part>, NoMemory>
    requires { 1 ≤ parts }
    ensures accounts { IfOk result (λ told. flat_map (λ part. part.accounts) told.items
        ≡ flat_map (account_bytes ledger.now.version) ledger.now.accounts) }
    ensures offers { IfOk result (λ told. flat_map (λ part. part.offers) told.items
        ≡ flat_map offer_bytes ledger.now.offers) }
{
    let results = map_indices(
        rt,
        alloc,
        parts,
        &|place: usize| -> Result<Part, NoMemory>
            requires { 1 ≤ parts }
            ensures { IfOk result (IsPart ledger.entry.now parts place) }
        { encoded_part(alloc, ledger, parts, place) },
    )?;
    all_of(alloc, results)
}

// The accounts of all parts, and the offers of all parts.
fn split(alloc: Global, parts: Vec<Part>) -> Result<(Vec<Writer>, Vec<Writer>), NoMemory>
    ensures accounts { IfOk result (λ both. flat_map (λ bytes. bytes) both.0.items
        ≡ flat_map (λ part. part.accounts) parts.items) }
    ensures offers { IfOk result (λ both. flat_map (λ bytes. bytes) both.1.items
        ≡ flat_map (λ part. part.offers) parts.items) }
{
    let mut accounts = Vec::with_capacity(alloc, parts.len())?;
    let mut offers = Vec::with_capacity(alloc, parts.len())?;
    for part in parts {
        accounts.push(part.accounts)?;
        offers.push(part.offers)?;
    }
    Ok((accounts, offers))
}

// What stands before the accounts: the frame of the record, and the opening of the state.
fn front_of(alloc: Global, ledger: &Ledger) -> Result<Writer, NoMemory>
    ensures { IfOk result (λ front. front ≡ frame state_tag (length (state_bytes ledger.now)) ++ opening_bytes ledger.now) }
{
    let mut front = Writer::new(alloc);
    front.put_u8(tag::STATE)?;
    front.put_u32(state_length(ledger))?;
    write_opening(&mut front, ledger)?;
    Ok(front)
}

// The front, the accounts of all parts, the number of offers, and the offers of all parts.
fn in_order(
    alloc: Global,
    front: Writer,
    count: Writer,
    parts: Vec<Part>,
) -> Result<Pieces, NoMemory>
    ensures { IfOk result (λ pieces. pieces ≡ front ++ (flat_map (λ part. part.accounts) parts.items
        ++ (count ++ flat_map (λ part. part.offers) parts.items))) }
{
    let (mut accounts, mut offers) = split(alloc, parts)?;
    let mut pieces = Vec::with_capacity(alloc, accounts.len().saturating_add(1).saturating_mul(2))?;
    pieces.push(front)?;
    pieces.append(&mut accounts)?;
    pieces.push(count)?;
    pieces.append(&mut offers)?;
    Ok(Pieces::of(pieces))
}

// The record of a ledger in one piece, which this thread encodes.
fn in_one_piece(alloc: Global, ledger: &Ledger) -> Result<Pieces, NoMemory>
    ensures { IfOk result (λ pieces. pieces ≡ record_bytes state_tag (state_bytes ledger.now)) }
{
    let mut state = Writer::new(alloc);
    write_frame(&mut state, tag::STATE, state_length(ledger))?;
    write_state(&mut state, ledger)?;
    let mut pieces = Vec::with_capacity(alloc, 1)?;
    pieces.push(state)?;
    Ok(Pieces::of(pieces))
}

/// The record of a ledger in pieces. At most four threads encode a long one, and a short one is one piece.
pub fn state_in_pieces<R: Threads + Sync>(
    rt: &R,
    alloc: Global,
    ledger: &Ledger,
) -> Result<Pieces, NoMemory>
    ensures record { IfOk result (λ pieces. pieces ≡ record_bytes state_tag (state_bytes ledger.now)) }
{
    let threads = threads_for(ledger);
    if threads < 2 {
        return in_one_piece(alloc, ledger);
    }
    let parts = encoded_parts(rt, alloc, ledger, threads)?;
    let front = front_of(alloc, ledger)?;
    let mut count = Writer::new(alloc);
    count.put_u32(ledger.offers())?;
    in_order(alloc, front, count, parts)
}
