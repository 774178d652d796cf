//! A state worked out by hand, through each public call.

use crate::markets::two_offers;
use std::alloc::Global;
use sx_base::{AccountId, Amount, AssetId, Seq};
use sx_bytes::{ReadError, Reader, Writer};
use sx_ledger::*;
use sx_price::Limit;
use sx_state::*;
use sx_tx::{Kind, Tx};

fn state(alloc: Global) -> Option<Ledger> {
    read_state(alloc, &two_offers()).ok()
}

// The price, the rounding, both balances and the total of an asset.
fn numbers(ledger: &Ledger, asset: u8) -> Option<[u64; 5]> {
    if u32::from(asset) >= ledger.assets() || ledger.accounts() != 2 {
        return None;
    }
    let asset = AssetId::new(asset).ok()?;
    Some([
        ledger.price(asset).get(),
        ledger.rounding(asset),
        ledger.balance(0, asset),
        ledger.balance(1, asset),
        ledger.total(asset),
    ])
}

// The height, and the numbers of an asset.
fn read_numbers(alloc: Global, asset: u8) -> Option<(u64, [u64; 5])> {
    let ledger = state(alloc)?;
    Some((ledger.height(), numbers(&ledger, asset)?))
}

// Where the ledger and its index find an account.
fn found_account(alloc: Global, id: u64) -> Option<[Option<u32>; 2]> {
    let ledger = state(alloc)?;
    let index = ledger.index().ok()?;
    Some([ledger.find(AccountId(id)), index.find(AccountId(id))])
}

// The first id that is found elsewhere.
fn first_wrong_account(alloc: Global) -> Option<u64> {
    for (id, place) in [(0, None), (1, Some(0)), (2, None), (u64::MAX, Some(1))] {
        if found_account(alloc, id) != Some([place, place]) {
            return Some(id);
        }
    }
    None
}

fn first_key() -> Option<Key> {
    Some(Key {
        sell: AssetId::new(0).ok()?,
        buy: AssetId::new(1).ok()?,
        limit: Limit::new(1 << 25).ok()?,
        account: AccountId(1),
        seq: Seq::new(3).ok()?,
    })
}

// Where the first offer is found, and what it sells.
fn found_offer(alloc: Global) -> Option<(u32, u64)> {
    let ledger = state(alloc)?;
    let key = first_key()?;
    let place = ledger.find_offer(&key)?;
    if place >= ledger.offers() {
        return None;
    }
    Some((place, ledger.offer(place).amount.get()))
}

#[test]
fn a_state_is_read(rt: HostRuntime) {
    let alloc = rt.alloc();
    let height = 9_223_372_036_854_775_807;
    assert!(rt; read_numbers(alloc, 0) == Some((height, [1 << 24, 0, 10, 30, 80])));
    assert!(rt; read_numbers(alloc, 1) == Some((height, [1 << 40, 3, 20, 0, 24])));
    assert_eq!(rt; first_wrong_account(alloc), None);
    assert!(rt; found_offer(alloc) == Some((0, 40)));
}

// Whether a state is written as it was read, once it was copied, taken apart and put together.
fn is_written(alloc: Global) -> Option<bool> {
    let ledger = state(alloc)?;
    let again = Ledger::of(ledger.copy().ok()?.into_parts());
    let mut to = Writer::new(alloc);
    write_state(&mut to, &again).ok()?;
    Some(to.bytes() == two_offers().as_slice() && state_length(&again) == 182)
}

#[test]
fn a_state_is_written(rt: HostRuntime) {
    assert!(rt; is_written(rt.alloc()) == Some(true));
    state_laws();
}

// Two prices from byte 10 on, and where the reader is then.
fn read_two(alloc: Global, from: &mut Reader) -> Option<([u64; 2], usize)> {
    let prices = read_prices(alloc, from, 2).ok()?;
    match prices.items() {
        [first, second] => Some(([first.get(), second.get()], from.place())),
        _ => None,
    }
}

// Whether both prices are read, and where the reader is once it has found that what comes next is none.
fn prices_then(alloc: Global) -> Option<(bool, usize)> {
    let bytes = two_offers();
    let mut from = Reader::new(&bytes);
    from.raw(10).ok()?;
    let read = read_two(alloc, &mut from)? == ([1 << 24, 1 << 40], 26);
    let ended = read_prices(alloc, &mut from, 2).is_err();
    Some((read && ended, from.place()))
}

#[test]
fn prices_are_read(rt: HostRuntime) {
    assert!(rt; prices_then(rt.alloc()) == Some((true, 26)));
}

// Where the first fault of the state is once one byte of it is another, and the number of it.
fn refusal(alloc: Global, place: usize, byte: u8) -> Option<(u64, u8)> {
    let mut payload = two_offers();
    *payload.get_mut(place)? = byte;
    match read_state(alloc, &payload) {
        Err(ReadError::Form(refused)) => Some((refused.at, refused.fault.number())),
        _ => None,
    }
}

// The place of the first byte whose change is refused otherwise.
fn first_wrong_refusal(alloc: Global) -> Option<usize> {
    // the place and the byte; where the fault is, and its number
    for (place, byte, at, number) in [
        (0, 3, 0, 14),
        (1, 128, 1, 15),
        (9, 33, 9, 16),
        (14, 0, 10, 11),
        (26, 128, 26, 3),
        (26, 64, 0, 8),
        (43, 2, 42, 9),
        (45, 3, 110, 7),
        (54, 128, 54, 5),
        (111, 5, 110, 9),
        (113, 3, 182, 1),
        (113, 1, 148, 10),
        (115, 0, 115, 6),
        (116, 1, 116, 4),
        (173, 8, 148, 17),
    ] {
        if refusal(alloc, place, byte) != Some((at, number)) {
            return Some(place);
        }
    }
    None
}

#[test]
fn the_first_fault_is_told(rt: HostRuntime) {
    assert_eq!(rt; first_wrong_refusal(rt.alloc()), None);
}

// A payment, a creation, an offer, and the end of the first offer, by number.
fn kind(number: u8) -> Option<Kind> {
    let (sell, buy) = (AssetId::new(0).ok()?, AssetId::new(1).ok()?);
    let limit = Limit::new(1 << 25).ok()?;
    let amount = Amount::new(40).ok()?;
    let seq = Seq::new(3).ok()?;
    Some(match number {
        0 => Kind::Pay {
            to: AccountId(1),
            asset: buy,
            amount,
        },
        1 => Kind::Create { id: AccountId(9) },
        2 => Kind::Offer {
            sell,
            buy,
            limit,
            amount,
        },
        _ => Kind::Cancel {
            sell,
            buy,
            limit,
            seq,
        },
    })
}

// The place of the account of a transaction, and 100 more than that of the payee or 200 more than that of the
// offer. The account is looked for at a place first.
fn placed(alloc: Global, near: u32, number: u8) -> Option<(u32, u32)> {
    let ledger = state(alloc)?;
    let index = ledger.index().ok()?;
    let tx = Tx {
        account: AccountId(1),
        seq: Seq::new(8).ok()?,
        kind: kind(number)?,
    };
    let places = ledger.places_of(&index, near, &tx).ok()?;
    match places.target {
        Target::Payee(place) => Some((places.account, place.checked_add(100)?)),
        Target::Offer(place) => Some((places.account, place.checked_add(200)?)),
        _ => None,
    }
}

#[test]
fn places_are_found(rt: HostRuntime) {
    for near in [0, 1, u32::MAX] {
        assert!(rt; placed(rt.alloc(), near, 0) == Some((0, 100)));
        assert!(rt; placed(rt.alloc(), near, 3) == Some((0, 200)));
    }
}

// The number of what a transaction is refused for, or 0 if it passes.
fn checked(alloc: Global, number: u8, seq: u64) -> Option<u8> {
    let ledger = state(alloc)?;
    let tx = Tx {
        account: AccountId(1),
        seq: Seq::new(seq).ok()?,
        kind: kind(number)?,
    };
    match ledger.static_check(&tx) {
        Ok(()) => Some(0),
        Err(why) => Some(why.number()),
    }
}

#[test]
fn transactions_pass(rt: HostRuntime) {
    for number in [0, 1, 2, 3] {
        // the number 8 is open, and 7 is used
        assert!(rt; checked(rt.alloc(), number, 8) == Some(0));
        assert!(rt; checked(rt.alloc(), number, 7) == Some(2));
    }
    posting_laws();
    bound_laws();
    body_laws();
}
