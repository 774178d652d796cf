//! Transactions and states that were worked out by hand.

use sx_base::{AccountId, Amount, AssetId, Seq};
use sx_price::Limit;
use sx_tx::{Kind, Tx};

// A transaction of an account under a sequence number.
fn tx(account: u64, seq: u64, kind: Kind) -> Option<Tx> {
    Some(Tx {
        account: AccountId(account),
        seq: Seq::new(seq).ok()?,
        kind,
    })
}

// A payment of units of the first asset.
pub fn pay(account: u64, seq: u64, to: u64, amount: u64) -> Option<Tx> {
    let kind = Kind::Pay {
        to: AccountId(to),
        asset: AssetId::new(0).ok()?,
        amount: Amount::new(amount).ok()?,
    };
    tx(account, seq, kind)
}

// The creation of an account.
pub fn create(account: u64, seq: u64, id: u64) -> Option<Tx> {
    tx(account, seq, Kind::Create { id: AccountId(id) })
}

// The cancellation of the offer of `one_offer`.
pub fn cancel(seq: u64) -> Option<Tx> {
    let kind = Kind::Cancel {
        sell: AssetId::new(0).ok()?,
        buy: AssetId::new(1).ok()?,
        limit: Limit::new(1 << 24).ok()?,
        seq: Seq::new(3).ok()?,
    };
    tx(1, seq, kind)
}

// One asset. Account 1 has 100 units, account 2 has 5.
#[rattlefmt::skip]
pub fn two_accounts() -> [u8; 82] {
    [
        1, 0, 0, 0, 0, 0, 0, 0, 0, 1, 0, 0, 0, 0, 1, 0, 0, 0, 0, 0, 0, 0, 0, 0, 0, 0, 0, 0, 0, 2,
        0, 0, 0, 0, 0, 0, 0, 1, 0, 0, 0, 0, 0, 0, 0, 0, 0, 0, 0, 0, 0, 0, 0, 100,
        0, 0, 0, 0, 0, 0, 0, 2, 0, 0, 0, 0, 0, 0, 0, 0, 0, 0, 0, 0, 0, 0, 0, 5, 0, 0, 0, 0,
    ]
}

// Two assets. Accounts 1 to 3 have 100 units of the first, and account 1 has used the numbers up to 3, the
// last for an offer.
#[rattlefmt::skip]
pub fn one_offer() -> [u8; 180] {
    [
        1, 0, 0, 0, 0, 0, 0, 0, 0, 2, 0, 0, 0, 0, 1, 0, 0, 0, 0, 0, 0, 0, 1, 0, 0, 0, 0, 0, 0, 0, 0, 0, 0, 0,
        0, 0, 0, 0, 0, 0, 0, 0, 0, 0, 0, 3, 0, 0, 0, 0, 0, 0, 0, 1, 0, 0, 0, 0, 0, 0, 0, 3, 0, 0, 0, 0, 0, 0,
        0, 100, 0, 0, 0, 0, 0, 0, 0, 0, 0, 0, 0, 0, 0, 0, 0, 2, 0, 0, 0, 0, 0, 0, 0, 0, 0, 0, 0, 0, 0, 0, 0,
        100, 0, 0, 0, 0, 0, 0, 0, 0, 0, 0, 0, 0, 0, 0, 0, 3, 0, 0, 0, 0, 0, 0, 0, 0, 0, 0, 0, 0, 0, 0, 0, 100,
        0, 0, 0, 0, 0, 0, 0, 0, 0, 0, 0, 1, 0, 1, 0, 0, 0, 0, 1, 0, 0, 0, 0, 0, 0, 0, 0, 0, 0, 1, 0, 0, 0, 0,
        0, 0, 0, 3, 0, 0, 0, 0, 0, 0, 0, 40,
    ]
}

// Two assets, three accounts, and one offer of the first account.
#[rattlefmt::skip]
pub fn three_accounts() -> [u8; 180] {
    [
        1,
        0, 0, 0, 0, 0, 0, 0, 0,
        2,
        0, 0, 0, 0, 1, 0, 0, 0,
        0, 0, 0, 0, 1, 0, 0, 0,
        0, 0, 0, 0, 0, 0, 0, 0,
        0, 0, 0, 0, 0, 0, 0, 0,
        0, 0, 0, 3,
        0, 0, 0, 0, 0, 0, 0, 1,
        0, 0, 0, 0, 0, 0, 0, 3,
        0, 0, 0, 0, 0, 0, 0, 10,
        0, 0, 0, 0, 0, 0, 0, 20,
        0, 0, 0, 0, 0, 0, 0, 2,
        0, 0, 0, 0, 0, 0, 0, 0,
        0, 0, 0, 0, 0, 0, 0, 30,
        0, 0, 0, 0, 0, 0, 0, 0,
        0, 0, 0, 0, 0, 0, 0, 3,
        0, 0, 0, 0, 0, 0, 0, 0,
        0, 0, 0, 0, 0, 0, 0, 40,
        0, 0, 0, 0, 0, 0, 0, 50,
        0, 0, 0, 1,
        0,
        1,
        0, 0, 0, 0, 1, 0, 0, 0,
        0, 0, 0, 0, 0, 0, 0, 1,
        0, 0, 0, 0, 0, 0, 0, 3,
        0, 0, 0, 0, 0, 0, 0, 40,
    ]
}

// Two assets, and five accounts that hold nothing.
#[rattlefmt::skip]
pub fn five_accounts() -> [u8; 210] {
    [
        1,
        0, 0, 0, 0, 0, 0, 0, 0,
        2,
        0, 0, 0, 0, 1, 0, 0, 0,
        0, 0, 0, 0, 1, 0, 0, 0,
        0, 0, 0, 0, 0, 0, 0, 0,
        0, 0, 0, 0, 0, 0, 0, 0,
        0, 0, 0, 5,
        0, 0, 0, 0, 0, 0, 0, 1, 0, 0, 0, 0, 0, 0, 0, 0, 0, 0, 0, 0, 0, 0, 0, 0, 0, 0, 0, 0, 0, 0, 0, 0,
        0, 0, 0, 0, 0, 0, 0, 2, 0, 0, 0, 0, 0, 0, 0, 0, 0, 0, 0, 0, 0, 0, 0, 0, 0, 0, 0, 0, 0, 0, 0, 0,
        0, 0, 0, 0, 0, 0, 0, 3, 0, 0, 0, 0, 0, 0, 0, 0, 0, 0, 0, 0, 0, 0, 0, 0, 0, 0, 0, 0, 0, 0, 0, 0,
        0, 0, 0, 0, 0, 0, 0, 4, 0, 0, 0, 0, 0, 0, 0, 0, 0, 0, 0, 0, 0, 0, 0, 0, 0, 0, 0, 0, 0, 0, 0, 0,
        0, 0, 0, 0, 0, 0, 0, 5, 0, 0, 0, 0, 0, 0, 0, 0, 0, 0, 0, 0, 0, 0, 0, 0, 0, 0, 0, 0, 0, 0, 0, 0,
        0, 0, 0, 0,
    ]
}
