//! States that were worked out by hand, each the bytes of a payload.

// One asset at 1. Account 1 has 100 units of it, and account 2 has 5.
#[rattlefmt::skip]
pub fn two_accounts() -> [u8; 82] {
    [
        1,
        0, 0, 0, 0, 0, 0, 0, 0,
        1,
        0, 0, 0, 0, 1, 0, 0, 0,
        0, 0, 0, 0, 0, 0, 0, 0,
        0, 0, 0, 2,
        0, 0, 0, 0, 0, 0, 0, 1,
        0, 0, 0, 0, 0, 0, 0, 0,
        0, 0, 0, 0, 0, 0, 0, 100,
        0, 0, 0, 0, 0, 0, 0, 2,
        0, 0, 0, 0, 0, 0, 0, 0,
        0, 0, 0, 0, 0, 0, 0, 5,
        0, 0, 0, 0,
    ]
}

// Two assets, the second at the greatest price and with 3 units kept by rounding, at the greatest
// height. Account 1 has used the sequence number 7. It sells 40 of the first asset under the number
// 3, at the limit 2, and 1 of the second under the number 7, at the greatest limit.
#[rattlefmt::skip]
pub fn two_offers() -> [u8; 182] {
    [
        1,
        127, 255, 255, 255, 255, 255, 255, 255,
        2,
        0, 0, 0, 0, 1, 0, 0, 0,
        0, 0, 1, 0, 0, 0, 0, 0,
        0, 0, 0, 0, 0, 0, 0, 0,
        0, 0, 0, 0, 0, 0, 0, 3,
        // accounts, from byte 42 on
        0, 0, 0, 2,
        0, 0, 0, 0, 0, 0, 0, 1,
        0, 0, 0, 0, 0, 0, 0, 7,
        0, 0, 0, 0, 0, 0, 0, 10,
        0, 0, 0, 0, 0, 0, 0, 20,
        255, 255, 255, 255, 255, 255, 255, 255,
        0, 0, 0, 0, 0, 0, 0, 0,
        0, 0, 0, 0, 0, 0, 0, 30,
        0, 0, 0, 0, 0, 0, 0, 0,
        // offers, from byte 110 on
        0, 0, 0, 2,
        0,
        1,
        0, 0, 0, 0, 2, 0, 0, 0,
        0, 0, 0, 0, 0, 0, 0, 1,
        0, 0, 0, 0, 0, 0, 0, 3,
        0, 0, 0, 0, 0, 0, 0, 40,
        1,
        0,
        0, 255, 255, 255, 255, 255, 255, 255,
        0, 0, 0, 0, 0, 0, 0, 1,
        0, 0, 0, 0, 0, 0, 0, 7,
        0, 0, 0, 0, 0, 0, 0, 1,
    ]
}
