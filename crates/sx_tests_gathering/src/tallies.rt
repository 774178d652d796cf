//! What a tally tells where all amounts together do not fit 8 bytes.

use crate::markets::five_accounts;
use std::alloc::Global;
use sx_base::{AccountId, Amount, AssetId, Seq};
use sx_state::read_state;
use sx_tally::precheck;
use sx_tx::{Kind, Tx};

// Puts a payment of units of the first asset behind others.
fn push_payment(txs: &mut Vec<Tx>, from: u64, seq: u64, to: u64, units: u64) -> Option<()> {
    txs.push(Tx {
        account: AccountId(from),
        seq: Seq::new(seq).ok()?,
        kind: Kind::Pay {
            asset: AssetId::new(0).ok()?,
            to: AccountId(to),
            amount: Amount::new(units).ok()?,
        },
    })
    .ok()
}

// First 256 payments of one unit: 64 by each of the accounts 1 to 4 to the next of them. Then six payments of 2^62
// units by account 5 to account 1, whose sums have to keep what they were.
fn payments(alloc: Global) -> Option<Vec<Tx>> {
    let mut txs = Vec::new(alloc);
    for seq in 1..65 {
        for from in 1..5 {
            push_payment(&mut txs, from, seq, from % 4 + 1, 1)?;
        }
    }
    for seq in 1..7 {
        push_payment(&mut txs, 5, seq, 1, 1 << 62)?;
    }
    Some(txs)
}

// The account of the first overdraft of these payments by the rule of a version, and its credits and debits. It holds
// nothing of the first asset.
fn overdraft(alloc: Global, version: u8) -> Option<(u64, u128, u128)> {
    let ledger = read_state(alloc, &five_accounts()).ok()?;
    let txs = payments(alloc)?;
    let tally = precheck(alloc, &ledger, &txs).ok()?;
    let found = tally.first_overdraft(&ledger, version)?;
    if found.asset.get() != 0 || found.opening != 0 {
        return None;
    }
    Some((found.account.0, found.credits, found.debits))
}

#[test]
fn sums_are_exact_below_and_above_8_bytes(rt: HostRuntime) {
    let great = 6 << 62;
    assert!(rt; overdraft(rt.alloc(), 1) == Some((1, great + 64, 64)));
    assert!(rt; overdraft(rt.alloc(), 2) == Some((5, 0, great)));
}
