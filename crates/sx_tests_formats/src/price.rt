//! Worked rows, with numbers from outside.

use std::alloc::Global;
use sx_price::*;

// The price and the limit 1.
const ONE: u64 = 16_777_216;

fn is_price(raw: u64) -> bool {
    match Price::new(raw) {
        Ok(price) => price.get() == raw,
        Err(_) => false,
    }
}

fn is_limit(raw: u64) -> bool {
    match Limit::new(raw) {
        Ok(limit) => limit.get() == raw,
        Err(_) => false,
    }
}

fn is_mu(raw: u8) -> bool {
    match Mu::new(raw) {
        Ok(mu) => mu.get() == raw,
        Err(_) => false,
    }
}

// The first number that is wrongly taken or refused.
fn first_wrong() -> Option<u64> {
    for (raw, price, limit) in [
        (0, false, false),
        (1, false, true),
        (255, false, true),
        (256, true, true),
        (1_099_511_627_776, true, true),
        (1_099_511_627_777, false, true),
        (72_057_594_037_927_935, false, true),
        (72_057_594_037_927_936, false, false),
    ] {
        if is_price(raw) != price || is_limit(raw) != limit {
            return Some(raw);
        }
    }
    None
}

#[test]
fn numbers_keep_their_range(rt: HostRuntime) {
    assert_eq!(rt; first_wrong(), None);
    assert!(rt; !is_mu(0) && is_mu(1) && is_mu(20) && !is_mu(21));
}

// Whether what is made of two prices has them, and gives them back.
fn are_entries(alloc: Global) -> Option<bool> {
    let entries = [Price::new(ONE).ok()?, Price::new(256).ok()?];
    let prices = Prices::of(entries.to_vec(alloc).ok()?);
    let seen = prices.items() == entries.as_slice();
    let given = prices.into_items();
    Some(seen && given.as_slice() == entries.as_slice())
}

#[test]
fn prices_are_their_entries(rt: HostRuntime) {
    assert!(rt; are_entries(rt.alloc()) == Some(true));
}

// Whether an offer may trade at two prices, and whether it must.
fn trades(sell: u64, buy: u64, limit: u64, j: u8) -> Option<(bool, bool)> {
    let sell = Price::new(sell).ok()?;
    let buy = Price::new(buy).ok()?;
    let limit = Limit::new(limit).ok()?;
    let mu = Mu::new(j).ok()?;
    Some((
        may_trade(sell, buy, limit),
        must_trade(sell, buy, limit, mu),
    ))
}

// The limit of the first row that comes out otherwise.
fn first_wrong_trade() -> Option<u64> {
    // the two prices, the limit, the exponent of the margin; whether it may, whether it must
    for (sell, buy, limit, j, may, must) in [
        // three halves, and the limit at it, above it and below it
        (3 * ONE, 2 * ONE, 25_165_824, 10, true, false),
        (3 * ONE, 2 * ONE, 25_165_825, 10, false, false),
        (3 * ONE - 1, 2 * ONE, 25_165_824, 10, false, false),
        (3 * ONE + 1, 2 * ONE, 25_165_824, 10, true, false),
        // one less its 1024th part is 16384 * 1023
        (ONE, ONE, 16_760_831, 10, true, true),
        (ONE, ONE, 16_760_832, 10, true, true),
        (ONE, ONE, 16_760_833, 10, true, false),
        // one less a half, and less its 2^20th part
        (ONE, ONE, 8_388_608, 1, true, true),
        (ONE, ONE, 8_388_609, 1, true, false),
        (ONE, ONE, 16_777_200, 20, true, true),
        (ONE, ONE, 16_777_201, 20, true, false),
        // the extremes
        (256, 1_099_511_627_776, 1, 1, false, false),
        (
            1_099_511_627_776,
            256,
            72_057_594_037_927_935,
            20,
            true,
            false,
        ),
    ] {
        if trades(sell, buy, limit, j) != Some((may, must)) {
            return Some(limit);
        }
    }
    None
}

#[test]
fn offers_trade_at_their_limit(rt: HostRuntime) {
    assert_eq!(rt; first_wrong_trade(), None);
    limit_laws();
}

// The value of the most units at the greatest price, and the units that it makes.
fn greatest() -> Option<(u128, u64)> {
    let price = Price::new(1_099_511_627_776).ok()?;
    let value = value(price, 4_611_686_018_427_387_904);
    Some((value, units_up(value, price)))
}

// The value of 50 units.
fn of_fifty(price: u64) -> Option<u128> {
    Some(value(Price::new(price).ok()?, 50))
}

// The units up and down that a value makes at a price.
fn in_units(value: u128, price: u64) -> Option<(u64, u64)> {
    let price = Price::new(price).ok()?;
    if value >= 1_000_000_000 {
        return None;
    }
    Some((units_up(value, price), units_down(value, price)))
}

// The value of the first row that comes out otherwise.
fn first_wrong_units() -> Option<u128> {
    // the value, the price; the units up and down
    for (value, price, up, down) in [
        (856_337_050, 16_427_691, 53, 52),
        (856_337_050, 17_126_741, 50, 50),
        (856_337_051, 17_126_741, 51, 50),
        (856_337_049, 17_126_741, 50, 49),
        (0, 256, 0, 0),
        (1, 256, 1, 0),
    ] {
        if in_units(value, price) != Some((up, down)) {
            return Some(value);
        }
    }
    None
}

#[test]
fn values_are_rounded_to_units(rt: HostRuntime) {
    let most = (
        5_070_602_400_912_917_605_986_812_821_504,
        4_611_686_018_427_387_904,
    );
    assert!(rt; greatest() == Some(most));
    assert!(rt; of_fifty(17_126_741) == Some(856_337_050));
    assert_eq!(rt; first_wrong_units(), None);
    rounding_laws();
}
