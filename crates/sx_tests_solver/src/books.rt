//! Offers of two pairs, through each public call.

use std::alloc::Global;
use std::test::*;
use sx_base::{AccountId, Amount, AssetId, Seq};
use sx_book::*;
use sx_ledger::{Fill, Fills, Offer};
use sx_price::Limit;

// An offer of an account, under the sequence number 1.
fn offer(sell: u8, buy: u8, limit: u64, account: u64, amount: u64) -> Option<Offer> {
    Some(Offer {
        sell: AssetId::new(sell).ok()?,
        buy: AssetId::new(buy).ok()?,
        limit: Limit::new(limit).ok()?,
        account: AccountId(account),
        seq: Seq::new(1).ok()?,
        amount: Amount::new(amount).ok()?,
    })
}

// Adds an offer, if it may be added.
fn add(books: &mut Books, offer: Offer) -> Option<Result<(), BookFault>> {
    let assets = books.assets();
    let (sell, buy) = (offer.sell.get(), offer.buy.get());
    if u32::from(sell) >= assets || u32::from(buy) >= assets || sell == buy {
        return None;
    }
    if books.len() >= Books::MOST_OFFERS {
        return None;
    }
    Some(books.add(offer))
}

// Books of three assets with offers at the limits 5, 8 and 8 for one pair, and at 2 for the pair back.
fn books(alloc: Global) -> Option<Books> {
    let mut books = Books::build(alloc, 3, &[]).ok()?;
    add(&mut books, offer(0, 1, 8, 1, 30)?)?.ok()?;
    add(&mut books, offer(1, 0, 2, 1, 40)?)?.ok()?;
    add(&mut books, offer(0, 1, 5, 2, 20)?)?.ok()?;
    add(&mut books, offer(0, 1, 8, 3, 10)?)?.ok()?;
    Some(books)
}

// The amounts of the first four offers of a pair.
fn amounts(alloc: Global, books: &Books, sell: u8, buy: u8) -> Option<[u64; 4]> {
    let (sell, buy) = (AssetId::new(sell).ok()?, AssetId::new(buy).ok()?);
    let offers = books.offers(alloc, sell, buy).ok()?;
    let mut amounts = [0; 4];
    for (amount, offer) in amounts.iter_mut().zip(offers.items()) {
        *amount = offer.amount.get();
    }
    Some(amounts)
}

// Lets the first offer of the pair (0, 1) give some units, if it has them.
fn reduce(alloc: Global, books: &mut Books, gives: u64) -> Option<()> {
    let (sell, buy) = (AssetId::new(0).ok()?, AssetId::new(1).ok()?);
    if gives > books.first(sell, buy)?.amount.get() {
        return None;
    }
    let fill = Fill {
        place: 0,
        value: 0,
        gives,
        gets: 0,
    };
    let mut fills = Vec::new(alloc);
    fills.push(fill).ok()?;
    books.reduce(sell, buy, &Fills::of(fills));
    Some(())
}

// What adding an offer answers, as the number of the refusal.
fn added(books: &mut Books, offer: Offer) -> Option<u8> {
    match add(books, offer)? {
        Ok(()) => Some(0),
        Err(BookFault::Present) => Some(1),
        Err(BookFault::NoMemory) => None,
    }
}

// The amount that cancelling an offer answers, and 0 where it is absent.
fn cancelled(books: &mut Books, offer: Offer) -> u64 {
    match books.cancel(&offer.key()) {
        Ok(offer) => offer.amount.get(),
        Err(Absent) => 0,
    }
}

// One step, and what it answers.
fn step(alloc: Global, books: &mut Books, number: u8) -> Option<u64> {
    let mine = offer(0, 1, 8, 2, 25)?;
    match number {
        0 | 1 => Some(u64::from(added(books, mine)?)),
        2 => Some(cancelled(books, offer(0, 1, 8, 1, 30)?)),
        3 => Some(cancelled(books, offer(0, 1, 8, 1, 30)?)),
        4 => {
            reduce(alloc, books, 5)?;
            Some(u64::from(books.len()))
        }
        _ => {
            reduce(alloc, books, 15)?;
            Some(u64::from(books.len()))
        }
    }
}

#[test]
fn offers_come_and_go(rt: HostRuntime) {
    let mut books = books(rt.alloc()).expect(&rt, "books of four offers");
    assert_eq!(rt; amounts(rt.alloc(), &books, 0, 1), Some([20, 30, 10, 0]));
    for (number, answer, left) in [
        (0, 0, [20, 30, 25, 10]),
        (1, 1, [20, 30, 25, 10]),
        (2, 30, [20, 25, 10, 0]),
        (3, 0, [20, 25, 10, 0]),
        (4, 4, [15, 25, 10, 0]),
        (5, 3, [25, 10, 0, 0]),
    ] {
        assert_eq!(rt;
            step(rt.alloc(), &mut books, number),
            Some(answer),
            "step {number}"
        );
        assert_eq!(rt;
            amounts(rt.alloc(), &books, 0, 1),
            Some(left),
            "after {number}"
        );
        assert_eq!(rt;
            amounts(rt.alloc(), &books, 1, 0),
            Some([40, 0, 0, 0]),
            "after {number}"
        );
    }
}
