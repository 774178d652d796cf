//! The first account whose debits are above what it may spend, looked for by one thread or by several.

ghost use Rattle.std.specs.Prelude.{◌≡◌, ℕ, ◌*◌, ◌<◌, ◌≤◌, List, length, nat_lt, slice_index, slice_get, IfSome};
ghost use Rattle.std.specs.Prelude.{IfNone, Some};
ghost use Rattle.std.specs.Thread.{IsSync};
ghost use Rattle.sx_tally.specs.Overdraft.{AreCovered, CoversAt, CoversBelow, IsFirstFrom};
ghost use Rattle.sx_ledger.specs.Overdraft.{IsFirstOverdrawn};
ghost use Rattle.sx_tally.specs.Overdraft.{IsOverdraftAt, IsOverdraftOf, may_spend};
ghost use Rattle.sx_ledger.specs.Overdraft.{NoneOverdrawn};
ghost use Rattle.sx_tally.specs.Postings.{HasRows, credit_at, debit_at};
ghost use Rattle.sx_tally.specs.Tally.{IsTally, IsTallyFor};
ghost use Rattle.sx_tx.specs.declared.tx.Tx.{Tx as Transaction};

use crate::postings::Postings;
use crate::tally::Tally;
use std::thread::Threads;
use sx_base::AssetId;
use sx_fork::fork;
use sx_ledger::{Account, Ledger, Overdraft};

// How many accounts are worth a thread of their own. To look at them takes a millisecond, and to start a thread a small
// part of that.
const WORTH_A_THREAD: u32 = 8_192;

// Whether debits are above what may be spent. In version 1 that is what is there, and in others what is
// credited as well.
fn is_over(version: u8, balance: u64, credits: u128, debits: u128) -> bool
    ensures { result ≡ nat_lt (may_spend version balance credits) debits }
{
    let missing = debits.saturating_sub(u128::from(balance));
    if version == 1 {
        return missing > 0;
    }
    missing > credits
}

// The first asset of which the debits of the account at a place are above what may be spent.
fn overdrawn_asset(
    version: u8,
    balances: &[u64],
    postings: &Postings,
    place: usize,
) -> Option<AssetId>
    requires few_assets { length balances.now ≤ 32 }
    requires place { place < length postings.now.starts.items }
    requires rows { HasRows postings.now (length postings.now.starts.items) (length balances.now) }
    ensures in_range { IfSome result (λ asset. asset < length balances.now) }
    ensures over { IfSome result (λ asset.
        may_spend version (slice_index balances.now asset) (credit_at postings.now place asset)
        < debit_at postings.now place asset) }
    ensures before { IfSome result (λ asset. CoversBelow asset version balances.now postings.now place) }
    ensures none { IfNone result (CoversBelow (length balances.now) version balances.now postings.now place) }
{
    for (asset, balance) in balances.iter().enumerate() {
        let debits = postings.debited(place, asset);
        let credits = postings.credited(place, asset);
        if is_over(version, *balance, credits, debits) {
            return AssetId::new(asset as u8).ok();
        }
    }
    None
}

// The first overdraft of an account, which stands at a place.
fn overdraft_of(
    version: u8,
    account: &Account,
    postings: &Postings,
    place: usize,
) -> Option<Overdraft>
    requires few_assets { length account.now.balances ≤ 32 }
    requires place { place < length postings.now.starts.items }
    requires rows { HasRows postings.now (length postings.now.starts.items) (length account.now.balances) }
    ensures first { IfSome result (IsOverdraftOf version account.now postings.now place) }
    ensures none { IfNone result (CoversBelow (length account.now.balances) version account.now.balances
        postings.now place) }
{
    let balances = account.balances.items();
    let asset = overdrawn_asset(version, balances, postings, place)?;
    let number = usize::from(asset.get());
    Some(Overdraft {
        account: account.id,
        asset,
        opening: balances[number],
        credits: postings.credited(place, number),
        debits: postings.debited(place, number),
    })
}

impl Tally {
    // The first overdraft of the account at a place.
    fn overdraft_at(&self, ledger: &Ledger, version: u8, place: u32) -> Option<Overdraft>
        requires place { place < length ledger.now.accounts }
        requires shape { IsTallyFor ledger.now self.now }
        ensures first { IfSome result (IsOverdraftAt version ledger.now self.now.postings place) }
        ensures none { IfNone result (CoversAt version ledger.now self.now.postings place) }
    {
        let account = ledger.account(place);
        if !self.postings.is_named(place as usize) {
            return None;
        }
        overdraft_of(version, account, &self.postings, place as usize)
    }

    // The first overdraft of the accounts from one place up to another.
    fn first_overdraft_in(
        &self,
        ledger: &Ledger,
        version: u8,
        from: u32,
        end: u32,
    ) -> Option<Overdraft>
        requires within { end ≤ length ledger.now.accounts }
        requires shape { IsTallyFor ledger.now self.now }
        ensures first { IfSome result (IsFirstFrom version ledger.now self.now.postings from) }
        ensures none { IfNone result (AreCovered version ledger.now self.now.postings from end) }
    {
        for place in from..end {
            if let Some(overdraft) = self.overdraft_at(ledger, version, place) {
                return Some(overdraft);
            }
        }
        None
    }
}

// The first overdraft of the accounts from one place up to another, looked for by so many threads, each with a part of
// them.
fn first_overdraft_by<R: Threads + Sync>(
    rt: &R,
    tally: &Tally,
    ledger: &Ledger,
    version: u8,
    from: u32,
    end: u32,
    threads: u32,
) -> Option<Overdraft>
    requires order { from ≤ end }
    requires within { end ≤ length ledger.now.accounts }
    requires shape { IsTallyFor ledger.now tally.now }
    ensures first { IfSome result (IsFirstFrom version ledger.now tally.now.postings from) }
    ensures none { IfNone result (AreCovered version ledger.now tally.now.postings from end) }
{
    if threads < 2 {
        return tally.first_overdraft_in(ledger, version, from, end);
    }
    let others = threads - 1;
    let middle = from + (end - from) / threads;
    let (one, other) = fork(
        rt,
        others < 2,
        || -> Option<Overdraft>
            requires { (from ≤ middle) × (middle ≤ length ledger.now.accounts) × IsTallyFor ledger.now tally.now }
            ensures first { IfSome result (IsFirstFrom version ledger.entry.now tally.entry.now.postings from) }
            ensures none { IfNone result (AreCovered version ledger.entry.now tally.entry.now.postings from middle) }
        { tally.first_overdraft_in(ledger, version, from, middle) },
        || -> Option<Overdraft>
            requires { IsSync R.row × (middle ≤ end) × (end ≤ length ledger.now.accounts) × IsTallyFor ledger.now tally.now × (1 ≤ others) }
            ensures first { IfSome result (IsFirstFrom version ledger.entry.now tally.entry.now.postings middle) }
            ensures none { IfNone result (AreCovered version ledger.entry.now tally.entry.now.postings middle end) }
        { first_overdraft_by(rt, tally, ledger, version, middle, end, others) },
    );
    one.or(other)
}

impl Tally {
    /// The first account, by id, whose transactions debit more of an asset than it may spend by the rule
    /// of this version, and of it the first such asset: in version 1 an account may spend what it holds in
    /// the ledger, in version 2 also what the transactions credit to it. It goes over the accounts once,
    /// and takes no memory.
    pub fn first_overdraft(&self, ledger: &Ledger, version: u8) -> Option<Overdraft>
        requires shape { IsTallyFor ledger.now self.now }
        ensures first { (txs : List Transaction) → IsTally ledger.now txs self.now
            → IfSome result (IsFirstOverdrawn version ledger.now txs) }
        ensures none { (txs : List Transaction) → IsTally ledger.now txs self.now
            → IfNone result (NoneOverdrawn version ledger.now txs) }
    {
        let accounts = ledger.accounts();
        self.first_overdraft_in(ledger, version, 0, accounts)
    }

    /// The same as [`Tally::first_overdraft`], by at most so many threads, each with a part of the accounts. The answer
    /// is the same for every number of workers, and with one, or for few accounts, no thread is started.
    pub fn par_first_overdraft<R: Threads + Sync>(
        &self,
        rt: &R,
        ledger: &Ledger,
        version: u8,
        workers: u32,
    ) -> Option<Overdraft>
        requires some_worker { 1 ≤ workers }
        requires shape { IsTallyFor ledger.now self.now }
        ensures first { (txs : List Transaction) → IsTally ledger.now txs self.now
            → IfSome result (IsFirstOverdrawn version ledger.now txs) }
        ensures none { (txs : List Transaction) → IsTally ledger.now txs self.now
            → IfNone result (NoneOverdrawn version ledger.now txs) }
    {
        let accounts = ledger.accounts();
        let threads = (accounts / WORTH_A_THREAD).clamp(1, workers);
        first_overdraft_by(rt, self, ledger, version, 0, accounts, threads)
    }
}
