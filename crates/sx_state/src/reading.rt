//! Reading a state, field by field from left to right. Each field is read whole and then tested, and
//! an entry is compared with the one before it once its last field is read.

ghost use Rattle.std.specs.Prelude.{◌≡◌, ◌≤◌, List, IfOk, Ok};
ghost use Rattle.sx_bytes.specs.declared.fault.Form.TheVariants as form;
ghost use Rattle.sx_bytes.specs.Cursor.{Decodes};
ghost use Rattle.sx_bytes.specs.Grammar.{Gives, MayDecode, MayDecodeOrStray, many_at};
ghost use Rattle.sx_ledger.specs.declared.parts.Parts.{Parts};
ghost use Rattle.sx_ledger.specs.Ledger.{IsLedger};
ghost use Rattle.sx_state.specs.Encoding.{state_bytes};
ghost use Rattle.sx_state.specs.Decoding.{price_at, units_field_at, head_at, parts_at, state_at};

use crate::entry_readers::{Alone, EntryReader, Spread};
use crate::offer_reading::offer_list;
use crate::totals::totals_fit;
use std::alloc::Global;
use std::thread::Threads;
use sx_base::{Amount, AssetId, BalanceVec, Balances};
use sx_bytes::{Form, FormFault, ReadError, Reader};
use sx_ledger::{Accounts, Ledger, Parts};
use sx_price::{Price, Prices};

// The fault of what begins at this place.
pub fn refusal(at: usize, fault: Form) -> ReadError
    ensures { result ≡ ReadError.Form (record { at = at; fault = fault }) }
{
    ReadError::Form(FormFault {
        at: at as u64,
        fault,
    })
}

#[inline]
fn price(from: &mut Reader) -> Result<Price, FormFault>
    ensures exact { Decodes (λ x. x) (price_at from.old) from.old from.new result }
    ensures same { from.new.bytes ≡ from.old.bytes }
    ensures onward { from.old.place ≤ from.new.place }
{
    let raw = from.field_u64(Price::LEAST, Price::MOST, Form::PriceRange)?;
    Ok(Price::new(raw).unwrap())
}

// The prices of `assets` assets.
fn prices(alloc: Global, from: &mut Reader, assets: u8) -> Result<Prices, ReadError>
    ensures exact { MayDecodeOrStray (λ prices. prices) (many_at price_at assets from.old) from.new result }
    ensures same { from.new.bytes ≡ from.old.bytes }
    ensures onward { from.old.place ≤ from.new.place }
{
    let mut prices = Vec::with_capacity(alloc, usize::from(assets))?;
    for _ in 0..assets {
        prices.push(price(from)?)?;
    }
    Ok(Prices::of(prices))
}

/// The prices of `assets` assets at the place, eight bytes each, or the first fault from left to
/// right. The faults are `Short`, and `PriceRange` at the field. It may answer `NoMemory` in place of
/// any other answer. A refusal leaves the reader where it was.
pub fn read_prices(alloc: Global, from: &mut Reader, assets: u8) -> Result<Prices, ReadError>
    ensures { MayDecode (λ prices. prices) (many_at price_at assets from.old) from.old from.new result }
{
    let place = from.place();
    let read = prices(alloc, from, assets);
    if read.is_err() {
        from.back(place);
    }
    read
}

// Balances, or roundings: one for each asset.
pub fn units(alloc: Global, from: &mut Reader, assets: u8) -> Result<BalanceVec, ReadError>
    ensures exact { MayDecodeOrStray (λ v. v.items) (many_at units_field_at assets from.old) from.new result }
    ensures same { from.new.bytes ≡ from.old.bytes }
    ensures onward { from.old.place ≤ from.new.place }
{
    let mut units = BalanceVec::with_capacity(alloc, usize::from(assets))?;
    for _ in 0..assets {
        units.push(from.field_u64(0, Amount::MOST, Form::AmountRange)?)?;
    }
    Ok(units)
}

// What stands before the accounts.
#[derive(Drop)]
struct Head {
    version: u8,
    height: u64,
    prices: Prices,
    rounding: BalanceVec,
}

#[tactic(auto, unfolding(crate::specs::Decoding::head_at))]
fn read_head(alloc: Global, from: &mut Reader) -> Result<Head, ReadError>
    ensures { MayDecodeOrStray (λ head. (head.version, head.height, head.prices, head.rounding.items)) (head_at from.old) from.new result }
{
    let version = from.field_u8(1, Ledger::NEWEST, Form::Version)?;
    let height = from.field_u64(0, Ledger::MOST_HEIGHT, Form::HeightRange)?;
    let assets = from.field_u8(1, AssetId::LIMIT, Form::AssetCount)?;
    let prices = prices(alloc, from, assets)?;
    let rounding = units(alloc, from, assets)?;
    Ok(Head {
        version,
        height,
        prices,
        rounding,
    })
}

#[tactic(auto, unfolding(crate::specs::Decoding::parts_at))]
fn parts<E: EntryReader>(
    entry_reader: &E,
    alloc: Global,
    from: &mut Reader,
) -> Result<Parts, ReadError>
    requires { E.is_ready }
    ensures { MayDecodeOrStray (λ parts. parts) (parts_at from.old) from.new result }
{
    let Head {
        version,
        height,
        prices,
        rounding,
    } = read_head(alloc, from)?;
    let assets = prices.items().len() as u8;
    let (accounts, ahead) = entry_reader.accounts(alloc, from, version, assets)?;
    let offers = offer_list(entry_reader, alloc, from, assets, &accounts, ahead)?;
    Ok(Parts {
        version,
        height,
        prices,
        rounding: Balances::of(rounding),
        accounts: Accounts::of(accounts),
        offers,
    })
}

#[tactic(auto, unfolding(crate::specs::Decoding::state_at))]
fn whole<E: EntryReader>(
    entry_reader: &E,
    alloc: Global,
    payload: &[u8],
) -> Result<Parts, ReadError>
    requires { E.is_ready }
    ensures { Gives (λ parts. parts) result (state_at payload.now) }
{
    let mut from = Reader::new(payload);
    let parts = parts(entry_reader, alloc, &mut from)?;
    if !totals_fit(entry_reader, &parts) {
        return Err(refusal(0, Form::Total));
    }
    if from.left() != 0 {
        return Err(refusal(from.place(), Form::Rest));
    }
    Ok(parts)
}

fn read_ledger<E: EntryReader>(
    entry_reader: &E,
    alloc: Global,
    payload: &[u8],
) -> Result<Ledger, ReadError>
    requires { E.is_ready }
    ensures found { IfOk result (λ ledger. IsLedger ledger × (payload.now ≡ state_bytes ledger)) }
    ensures only { (parts : Parts) → IsLedger parts → payload.now ≡ state_bytes parts →
        Gives (λ ledger. ledger) result (Ok parts) }
    ensures exact { Gives (λ ledger. ledger) result (state_at payload.now) }
{
    let parts = whole(entry_reader, alloc, payload)?;
    Ok(Ledger::of(parts))
}

/// The ledger of which a payload is the encoding, or the first fault from left to right, its offset
/// counted from the payload's first byte. It may answer `NoMemory` in place of any other answer.
///
/// The faults are `Version`, `HeightRange`, `AssetCount`, `PriceRange`, `AmountRange` of a rounding,
/// a balance or the amount of an offer, `TooMany` of a count above its limit, `SeqRange` of an
/// account's last sequence number or of an offer's, `AssetRange` of what an offer sells or buys,
/// `UsedRange` of an account's map, which is one of version 2, where it marks the number after the last
/// one or one that is no sequence number, `LimitRange`, and `Short` where a field passes the end. `Order` comes at an account that does not
/// stand after the one before it, or at an offer that does not, and `Owner` at an offer whose
/// account is not in the state or has not used its sequence number. `Total` comes at the first
/// byte, after all of these, and `Rest` at the first byte after the last offer.
pub fn read_state(alloc: Global, payload: &[u8]) -> Result<Ledger, ReadError>
    // The payload is the encoding of what is read.
    ensures found { IfOk result (λ ledger. IsLedger ledger × (payload.now ≡ state_bytes ledger)) }
    // The encoding of a ledger is read as that ledger, unless memory runs out.
    ensures only { (parts : Parts) → IsLedger parts → payload.now ≡ state_bytes parts →
        Gives (λ ledger. ledger) result (Ok parts) }
    // Which fault it is.
    ensures exact { Gives (λ ledger. ledger) result (state_at payload.now) }
{
    read_ledger(&Alone, alloc, payload)
}

/// The same as [`read_state`], but that threads decode the accounts and the offers of a long state, look up the owners
/// of the offers and add up the totals. There are as many as `workers`, and one more at most while accounts and offers
/// are decoded.
pub fn par_read_state<R: Threads + Sync>(
    rt: &R,
    alloc: Global,
    payload: &[u8],
    workers: u32,
) -> Result<Ledger, ReadError>
    requires some_worker { 1 ≤ workers }
    // The payload is the encoding of what is read.
    ensures found { IfOk result (λ ledger. IsLedger ledger × (payload.now ≡ state_bytes ledger)) }
    // The encoding of a ledger is read as that ledger, unless memory runs out.
    ensures only { (parts : Parts) → IsLedger parts → payload.now ≡ state_bytes parts →
        Gives (λ ledger. ledger) result (Ok parts) }
    // Which fault it is.
    ensures exact { Gives (λ ledger. ledger) result (state_at payload.now) }
{
    read_ledger(&Spread { rt, workers }, alloc, payload)
}
