//! Runs of candidates: those of one account stand side by side, so that their debits are summed at once, and each is
//! judged then.

ghost use Rattle.std.specs.Prelude.{◌≡◌, ℕ, ◌<◌, ◌≤◌, ◌++◌, [], ◌∷◌, Bool, true, List, All, Ok, IfSome, length};
ghost use Rattle.std.specs.Prelude.{slice_index_or};
ghost use Rattle.std.specs.Bool.{OnTrue};
ghost use Rattle.std.specs.List.Sorted.{IsSortedBy};
ghost use Rattle.sx_filter.specs.Alone.{is_covered as is_covered_tx, is_fit};
ghost use Rattle.sx_filter.specs.Kept.{covers};
ghost use Rattle.sx_filter.specs.Runs.{AreHeld, AreSums, EndsRun};
ghost use Rattle.sx_filter.specs.Part.{IsReady};
ghost use Rattle.sx_filter.specs.Named.{AreOffers};
ghost use Rattle.sx_filter.specs.Verdicts.{AreVerdicts, IsVerdict};
ghost use Rattle.sx_ledger.specs.declared.parts.Parts.{Parts as Ledgers};
ghost use Rattle.sx_ledger.specs.Body.{tx_before};
ghost use Rattle.sx_ledger.specs.Effects.{debit};
ghost use Rattle.sx_ledger.specs.Ledger.{assets_of, ids};
ghost use Rattle.sx_ledger.specs.Static.{static_of};
ghost use Rattle.sx_tx.specs.declared.tx.Tx.{Tx as Transaction};

use crate::sift::cancellation::Cancellation;
use crate::sift::fits::fits;
use crate::sift::kinds::debited_portion;
use crate::sift::seen::Seen;
use sx_base::{AccountId, AssetId};
use sx_ledger::{Ledger, LedgerIndex};
use sx_tx::Tx;

// Where the run ends that begins at a place.
fn end_of_run(txs: &[Tx], start: usize) -> usize
    requires { start < length txs.now }
    ensures { EndsRun txs.now start result }
{
    let account = txs[start].account.0;
    for end in start + 1..txs.len() {
        if txs[end].account.0 != account {
            return end;
        }
    }
    txs.len()
}

// What an account holds, by asset, and nothing where it is not there.
fn balances_of<'a>(ledger: &'a Ledger, index: &LedgerIndex, account: AccountId) -> &'a [u64]
    requires { index.now ≡ ids ledger.now.accounts }
    ensures { AreHeld ledger.now account.0 result.now }
{
    match index.find(account) {
        Some(place) => ledger.account(place).balances.items(),
        None => &[],
    }
}

// What is held of the asset at a place.
fn held(balances: &[u64], asset: usize) -> u64
    ensures { result ≡ slice_index_or balances.now asset 0 }
{
    match balances.get(asset) {
        Some(units) => *units,
        None => 0,
    }
}

// Adds what a candidate debits to the sums of its account, and answers whether that is held. Where it is not,
// the sums are left as they were.
fn add(balances: &[u64], tx: &Tx, sums: &mut [u64]) -> bool
    requires asset { IfSome (debit tx.now) (λ posting. posting.asset < length sums.old) }
    ensures len { length sums.new ≡ length sums.old }
    ensures sums { OnTrue result ((parts : Ledgers) (before : List Transaction)
        → AreSums parts before tx.now.account.0 sums.old
        → AreSums parts (before ++ tx.now ∷ []) tx.now.account.0 sums.new) }
    ensures covers { (parts : Ledgers) (before : List Transaction) → AreHeld parts tx.now.account.0 balances.now
        → AreSums parts before tx.now.account.0 sums.old
        → covers parts before tx.now.account.0 (assets_of parts) ≡ true
        → result ≡ covers parts (before ++ tx.now ∷ []) tx.now.account.0 (assets_of parts) }
{
    let Some(portion) = debited_portion(tx) else {
        return true;
    };
    let asset = usize::from(portion.asset.get());
    let left = held(balances, asset).saturating_sub(sums[asset]);
    if left < portion.units {
        return false;
    }
    sums[asset] += portion.units;
    true
}

// Whether the account of a run holds of each asset as much as the run debits. The sums are set to 0 before.
fn is_covered(
    ledger: &Ledger,
    index: &LedgerIndex,
    account: AccountId,
    run: &[Tx],
    sums: &mut [u64],
) -> bool
    requires index { index.now ≡ ids ledger.now.accounts }
    requires passes { All (λ tx. static_of ledger.now tx ≡ Ok tt) run.now }
    requires one { All (λ tx. tx.account.0 ≡ account.0) run.now }
    requires sums { length sums.old ≡ assets_of ledger.now }
    ensures len { length sums.new ≡ length sums.old }
    ensures covers { result ≡ covers ledger.now run.now account.0 (assets_of ledger.now) }
{
    sums.fill(0);
    let balances = balances_of(ledger, index, account);
    for tx in run {
        if !add(balances, tx, sums) {
            return false;
        }
    }
    true
}

// Judges the candidates of a run, of which the account is covered or not.
fn judge_run(
    txs: &[Tx],
    start: usize,
    end: usize,
    offers: &Seen<Cancellation>,
    covered: bool,
    verdicts: &mut [bool],
)
    requires ordered { start ≤ end }
    requires within { end ≤ length txs.now }
    requires sorted { IsSortedBy tx_before txs.now }
    requires offers { AreOffers txs.now offers.now }
    requires one_each { length verdicts.old ≡ length txs.now }
    ensures one_each { length verdicts.new ≡ length txs.now }
    ensures others { (k : ℕ) (d : Bool) → k < start → slice_index_or verdicts.new k d ≡ slice_index_or verdicts.old k d }
    ensures told { (parts : Ledgers) (k : ℕ) (d : Bool) → start ≤ k → k < end
        → IsVerdict (is_covered_tx parts txs.now) txs.now k covered
        → IsVerdict (is_fit parts txs.now) txs.now k (slice_index_or verdicts.new k d) }
{
    for place in start..end {
        verdicts[place] = fits(txs, place, offers, covered);
    }
}

// Of each candidate whether no other candidate stands in its way. The offers are those that the candidates cancel.
pub(crate) fn judge(
    ledger: &Ledger,
    index: &LedgerIndex,
    txs: &[Tx],
    offers: &Seen<Cancellation>,
    verdicts: &mut [bool],
)
    requires index { index.now ≡ ids ledger.now.accounts }
    requires ready { IsReady ledger.now txs.now }
    requires offers { AreOffers txs.now offers.now }
    requires one_each { length verdicts.old ≡ length txs.now }
    ensures one_each { length verdicts.new ≡ length txs.now }
    ensures verdicts { AreVerdicts (is_fit ledger.now txs.now) txs.now verdicts.new }
{
    let assets = ledger.assets() as usize;
    let mut sums = [0; AssetId::LIMIT as usize];
    let mut start = 0;
    while start < txs.len() {
        let end = end_of_run(txs, start);
        let is = is_covered(
            ledger,
            index,
            txs[start].account,
            &txs[start..end],
            &mut sums[..assets],
        );
        judge_run(txs, start, end, offers, is, verdicts);
        start = end;
    }
}
