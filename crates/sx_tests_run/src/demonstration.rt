//! The market of the demonstration, beside what another implementation of the generator draws.

use sx_gen::{demo_candidates, demo_state};
use sx_tx::{Kind, Tx};

// An offer: who, which number, what is sold and bought, the limit and the amount. A payment: who,
// which number, to whom, of what, and how much.
fn fields(tx: &Tx) -> [u64; 6] {
    let account = tx.account.0;
    let seq = tx.seq.get();
    match &tx.kind {
        Kind::Offer {
            sell,
            buy,
            limit,
            amount,
        } => [
            account,
            seq,
            sell.get() as u64,
            buy.get() as u64,
            limit.get(),
            amount.get(),
        ],
        Kind::Pay { to, asset, amount } => [
            account,
            seq,
            to.0,
            asset.get() as u64,
            amount.get(),
            0,
        ],
        _ => [0; 6],
    }
}

// One number of all fields of all transactions.
fn digest(txs: &[Tx]) -> u64 {
    let mut digest: u64 = 0;
    for tx in txs {
        for field in fields(tx) {
            digest = digest.wrapping_mul(31).wrapping_add(field);
        }
    }
    digest
}

// Some transactions of number 1.
fn drawn() -> [(usize, [u64; 6]); 6] {
    [
        (0, [1, 1, 3, 6, 12_496_629, 7_438]),
        (1, [2, 1, 4, 5, 14_433_567, 4_084]),
        (999, [1_000, 1, 5, 3, 20_600_896, 3_582]),
        (3_999, [1_000, 4, 4, 2, 20_253_455, 7_367]),
        (4_000, [1, 5, 141, 1, 43, 0]),
        (4_999, [1_000, 5, 977, 6, 5, 0]),
    ]
}

#[test]
fn candidates_are_drawn(rt: HostRuntime) {
    let alloc = rt.alloc();
    let txs = demo_candidates(alloc, 1).expect(&rt, "candidates");
    assert!(rt; txs.items().len() == 5_000);
    for (place, tx) in drawn() {
        assert!(rt; txs.items().get(place).map(fields) == Some(tx), "{place}");
    }
    assert!(rt; digest(txs.items()) == 192570047268426034);
    let txs = demo_candidates(alloc, u64::MAX).expect(&rt, "candidates");
    assert!(rt; digest(txs.items()) == 10844197080848791163);
}

#[test]
fn a_thousand_accounts_hold_as_much(rt: HostRuntime) {
    let ledger = demo_state(rt.alloc()).expect(&rt, "a state");
    let parts = ledger.parts();
    assert!(rt; parts.version == 1 && parts.height == 0 && parts.offers.items().is_empty());
    assert!(rt; parts.accounts.items().len() == 1_000);
    assert!(rt; parts.prices.items().len() == 8 && parts.prices.items()[7].get() == 1 << 24);
    assert!(rt; parts.rounding.items() == [0; 8].as_slice());
    for place in [0, 999] {
        let account = &parts.accounts.items()[place];
        assert!(rt; account.id.0 == place as u64 + 1 && account.window.last == 0);
        assert!(rt; account.balances.items() == [1_000_000; 8].as_slice());
    }
}
