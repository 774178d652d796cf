//! Reading the offers of a state.

ghost use Rattle.std.specs.Prelude.{◌≡◌, ◌≤◌, None, Ok, IfOk, IfSome, length};
ghost use Rattle.std.specs.List.{list_all};
ghost use Rattle.std.specs.List.Sorted.{IsStrictlyIncreasing};
ghost use Rattle.sx_base.specs.Ranges.{most_assets};
ghost use Rattle.sx_bytes.specs.Grammar.{DecodesOrStrays, MayDecodeOrStray, may_follow};
ghost use Rattle.sx_ledger.specs.Ledger.{has_owner as is_owned, ids, most_accounts};
ghost use Rattle.sx_ledger.specs.Order.{key_before};
ghost use Rattle.sx_state.specs.Decoding.{sell_at, buy_at, offer_at, placed_offer_at, placed_offers_at};
ghost use Rattle.sx_state.specs.Decoding.{next_offer_at, offers_at, offer_list_at};
ghost use Rattle.sx_state.specs.SoundOffers.{AreAhead};

use crate::entry_readers::EntryReader;
use crate::offer_decoding::Ahead;
use crate::owners::has_owner;
use crate::reading::refusal;
use crate::sizes::OFFER_BYTES;
use std::alloc::Global;
use sx_base::AssetId;
use sx_bytes::{Form, FormFault, NoMemory, ReadError, Reader};
use sx_ledger::{Account, AccountIndex, Key, Ledger, Offer, Offers};
use sx_tx::{read_amount, read_id, read_limit, read_seq};

// What is sold, one of `assets` assets.
#[inline]
fn sell(from: &mut Reader, assets: u8) -> Result<AssetId, FormFault>
    requires some { 1 ≤ assets }
    requires few { assets ≤ most_assets }
    ensures exact { DecodesOrStrays (λ x. x) (sell_at assets from.old) from.new result }
    ensures same { from.new.bytes ≡ from.old.bytes }
    ensures onward { from.old.place ≤ from.new.place }
{
    let number = from.field_u8(0, assets - 1, Form::AssetRange)?;
    Ok(AssetId::new(number).unwrap())
}

// What is bought, another one.
#[inline]
fn buy(from: &mut Reader, assets: u8, sell: AssetId) -> Result<AssetId, FormFault>
    requires some { 1 ≤ assets }
    requires few { assets ≤ most_assets }
    ensures exact { DecodesOrStrays (λ x. x) (buy_at assets sell from.old) from.new result }
    ensures same { from.new.bytes ≡ from.old.bytes }
    ensures onward { from.old.place ≤ from.new.place }
{
    let at = from.place() as u64;
    let number = from.field_u8(0, assets - 1, Form::AssetRange)?;
    if number == sell.get() {
        let fault = Form::AssetRange;
        return Err(FormFault { at, fault });
    }
    Ok(AssetId::new(number).unwrap())
}

#[inline]
#[tactic(auto, unfolding(crate::specs::Decoding::offer_at))]
pub fn offer(from: &mut Reader, assets: u8) -> Result<Offer, FormFault>
    requires some { 1 ≤ assets }
    requires few { assets ≤ most_assets }
    ensures exact { DecodesOrStrays (λ x. x) (offer_at assets from.old) from.new result }
    ensures same { from.new.bytes ≡ from.old.bytes }
    ensures onward { from.old.place ≤ from.new.place }
{
    let sell = sell(from, assets)?;
    let buy = buy(from, assets, sell)?;
    let limit = read_limit(from)?;
    let account = read_id(from)?;
    let seq = read_seq(from)?;
    let amount = read_amount(from)?;
    Ok(Offer {
        sell,
        buy,
        limit,
        account,
        seq,
        amount,
    })
}

// Whether an offer of this key may stand after the one before it.
#[inline]
pub fn follows(before: Option<Key>, key: &Key) -> bool
    ensures { result ≡ may_follow key_before before key.now }
{
    match before {
        None => true,
        Some(before) => before < *key,
    }
}

// The next offer, its owner not looked up.
#[tactic(auto, unfolding(crate::specs::Decoding::placed_offer_at))]
fn placed_offer(from: &mut Reader, assets: u8, before: Option<Key>) -> Result<Offer, FormFault>
    requires some { 1 ≤ assets }
    requires few { assets ≤ most_assets }
    ensures exact { DecodesOrStrays (λ x. x) (placed_offer_at assets before from.old) from.new result }
    ensures same { from.new.bytes ≡ from.old.bytes }
    ensures onward { from.old.place ≤ from.new.place }
{
    let at = from.place() as u64;
    let offer = offer(from, assets)?;
    if !follows(before, &offer.key()) {
        let fault = Form::Order;
        return Err(FormFault { at, fault });
    }
    Ok(offer)
}

#[tactic(auto, using(crate::proofs::OwnersLater::next_is))]
fn next_offer(
    from: &mut Reader,
    assets: u8,
    index: &AccountIndex,
    accounts: &[Account],
    before: Option<Key>,
) -> Result<Offer, ReadError>
    requires some { 1 ≤ assets }
    requires few { assets ≤ most_assets }
    requires indexed { index.now ≡ ids accounts.now }
    ensures { MayDecodeOrStray (λ x. x) (next_offer_at accounts.now assets before from.old) from.new result }
{
    let at = from.place();
    let offer = placed_offer(from, assets, before)?;
    if !has_owner(index, accounts, &offer) {
        return Err(refusal(at, Form::Owner));
    }
    Ok(offer)
}

// The offers at the place, their owners not looked up. Memory grows with what the bytes left can hold, and not with
// what the count claims.
fn placed_offers(
    alloc: Global,
    from: &mut Reader,
    assets: u8,
    count: u32,
) -> Result<Offers, ReadError>
    requires some { 1 ≤ assets }
    requires few { assets ≤ most_assets }
    ensures exact { MayDecodeOrStray (λ x. x) (placed_offers_at assets count None from.old) from.new result }
    ensures same { from.new.bytes ≡ from.old.bytes }
    ensures onward { from.old.place ≤ from.new.place }
{
    let room = from.left() / OFFER_BYTES as usize;
    let mut offers = Vec::with_capacity(alloc, room.min(count as usize))?;
    let mut before = None;
    for _ in 0..count {
        let offer = placed_offer(from, assets, before)?;
        before = Some(offer.key());
        offers.push(offer)?;
    }
    Ok(Offers::of(offers))
}

fn all_owned(index: &AccountIndex, accounts: &[Account], offers: &[Offer]) -> bool
    requires { index.now ≡ ids accounts.now }
    ensures { result ≡ list_all (is_owned accounts.now) offers.now }
{
    offers.iter().all(|offer| has_owner(index, accounts, offer))
}

// The offers at the place, or none where anything is amiss. All are read before their owners are looked up.
#[tactic(auto, using(crate::proofs::OwnersLater::all_owned))]
fn sound_offers(
    alloc: Global,
    from: &mut Reader,
    assets: u8,
    index: &AccountIndex,
    accounts: &[Account],
    count: u32,
) -> Result<Option<Offers>, NoMemory>
    requires some { 1 ≤ assets }
    requires few { assets ≤ most_assets }
    requires indexed { index.now ≡ ids accounts.now }
    ensures sound { IfOk result (λ read. IfSome read (λ offers. offers_at accounts.now assets count None from.old ≡ Ok (offers, from.new))) }
    ensures same { from.new.bytes ≡ from.old.bytes }
    ensures onward { from.old.place ≤ from.new.place }
{
    let offers = match placed_offers(alloc, from, assets, count) {
        Ok(offers) => offers,
        Err(ReadError::NoMemory) => return Err(NoMemory),
        Err(ReadError::Form(_)) => return Ok(None),
    };
    if !all_owned(index, accounts, offers.items()) {
        return Ok(None);
    }
    Ok(Some(offers))
}

// The number of offers at the place, and the offers, or none where anything is amiss.
#[tactic(auto, unfolding(crate::specs::Decoding::offer_list_at))]
pub fn sound_list(
    alloc: Global,
    from: &mut Reader,
    assets: u8,
    index: &AccountIndex,
    accounts: &[Account],
) -> Result<Option<Offers>, NoMemory>
    requires some { 1 ≤ assets }
    requires few { assets ≤ most_assets }
    requires indexed { index.now ≡ ids accounts.now }
    ensures sound { IfOk result (λ read. IfSome read (λ offers. offer_list_at accounts.now assets from.old ≡ Ok (offers, from.new))) }
    ensures same { from.new.bytes ≡ from.old.bytes }
    ensures onward { from.old.place ≤ from.new.place }
{
    match from.field_u32(0, Ledger::MOST_OFFERS, Form::TooMany) {
        Ok(count) => sound_offers(alloc, from, assets, index, accounts, count),
        Err(_) => Ok(None),
    }
}

// The offers at the place one by one, each with its owner, up to the first fault. Memory grows as above.
fn offers(
    alloc: Global,
    from: &mut Reader,
    assets: u8,
    index: &AccountIndex,
    accounts: &[Account],
    count: u32,
) -> Result<Offers, ReadError>
    requires some { 1 ≤ assets }
    requires few { assets ≤ most_assets }
    requires indexed { index.now ≡ ids accounts.now }
    ensures { MayDecodeOrStray (λ x. x) (offers_at accounts.now assets count None from.old) from.new result }
{
    let room = from.left() / OFFER_BYTES as usize;
    let mut offers = Vec::with_capacity(alloc, room.min(count as usize))?;
    let mut before = None;
    for _ in 0..count {
        let offer = next_offer(from, assets, index, accounts, before)?;
        before = Some(offer.key());
        offers.push(offer)?;
    }
    Ok(Offers::of(offers))
}

// The offers at the place, by these accounts: how many there are, and each of them. They may be decoded already. What
// is amiss is found by reading them once more.
#[tactic(auto, unfolding(crate::specs::Decoding::offer_list_at))]
pub fn offer_list<E: EntryReader>(
    entry_reader: &E,
    alloc: Global,
    from: &mut Reader,
    assets: u8,
    accounts: &[Account],
    ahead: Option<Ahead>,
) -> Result<Offers, ReadError>
    requires ready { E.is_ready }
    requires some { 1 ≤ assets }
    requires few { assets ≤ most_assets }
    requires by_id { IsStrictlyIncreasing (ids accounts.now) }
    requires few_accounts { length accounts.now ≤ most_accounts }
    requires ahead { IfSome ahead (λ ahead. AreAhead assets from.old ahead.offers ahead.end) }
    ensures { MayDecodeOrStray (λ x. x) (offer_list_at accounts.now assets from.old) from.new result }
{
    let index = AccountIndex::of(alloc, accounts)?;
    let place = from.place();
    if let Some(offers) = entry_reader.sound_offers(alloc, from, assets, &index, accounts, ahead)? {
        return Ok(offers);
    }
    from.back(place);
    let count = from.field_u32(0, Ledger::MOST_OFFERS, Form::TooMany)?;
    offers(alloc, from, assets, &index, accounts, count)
}
