//! Those candidates of a part that no candidate of it stands in the way of.

ghost use Rattle.std.specs.Prelude.{◌≡◌, Bool, IfOk, length, vec_len};
ghost use Rattle.std.specs.List.{filter as those};
ghost use Rattle.sx_filter.specs.Alone.{is_fit};
ghost use Rattle.sx_filter.specs.Named.{AreOffers};
ghost use Rattle.sx_filter.specs.Part.{IsReady};
ghost use Rattle.sx_filter.specs.Verdicts.{AreVerdicts};
ghost use Rattle.sx_ledger.specs.Ledger.{ids as accounts_of};
ghost use Rattle.sx_tx.specs.declared.tx.Tx.{Tx as Transaction};

use crate::sift::cancellation::Cancellation;
use crate::sift::runs::judge;
use crate::sift::seen::Seen;
use std::alloc::Global;
use sx_bytes::NoMemory;
use sx_ledger::{Ledger, LedgerIndex};
use sx_tx::Tx;

// Of each candidate whether no other candidate stands in its way.
fn verdicts_of(
    alloc: Global,
    ledger: &Ledger,
    index: &LedgerIndex,
    txs: &[Tx],
    offers: &Seen<Cancellation>,
) -> Result<Vec<bool>, NoMemory>
    requires index { index.now ≡ accounts_of ledger.now.accounts }
    requires ready { IsReady ledger.now txs.now }
    requires offers { AreOffers txs.now offers.now }
    ensures one_each { IfOk result (λ verdicts. length verdicts.items ≡ length txs.now) }
    ensures verdicts { IfOk result (λ verdicts. AreVerdicts (is_fit ledger.now txs.now) txs.now verdicts.items) }
{
    let mut verdicts = vec![in alloc; false; txs.len()]?;
    judge(ledger, index, txs, offers, &mut verdicts);
    Ok(verdicts)
}

// Keeps the candidates at the places that a list of verdicts names, in their order. Those before the first that is not
// kept stay where they are.
fn keep(txs: &mut Vec<Tx>, verdicts: &[bool])
    requires { length verdicts.now ≡ vec_len txs.old }
    ensures { (passes : Transaction → Bool) → AreVerdicts passes txs.old.items verdicts.now
        → txs.new.items ≡ those passes txs.old.items }
{
    let mut kept = 0;
    for place in 0..verdicts.len() {
        if verdicts[place] {
            let tx = txs[place];
            if kept < place {
                txs[kept] = tx;
            }
            kept += 1;
        }
    }
    txs.truncate(kept);
}

// Those of a part that no candidate of it stands in the way of. They stay in the memory of the part. The offers are
// those that candidates of the part cancel.
pub(crate) fn fit(
    alloc: Global,
    ledger: &Ledger,
    index: &LedgerIndex,
    part: Vec<Tx>,
    offers: &Seen<Cancellation>,
) -> Result<Vec<Tx>, NoMemory>
    requires index { index.now ≡ accounts_of ledger.now.accounts }
    requires ready { IsReady ledger.now part.items }
    requires offers { AreOffers part.items offers.now }
    ensures { IfOk result (λ fit. fit.items ≡ those (is_fit ledger.now part.items) part.items) }
{
    let mut txs = part;
    let verdicts = verdicts_of(alloc, ledger, index, &txs, offers)?;
    keep(&mut txs, &verdicts);
    Ok(txs)
}
