//! What reads the accounts and the offers of a state: this thread alone, or several.

ghost use Rattle.std.specs.Prelude.{◌≡◌, ℕ, ◌*◌, ◌<◌, ◌≤◌, ◌^◌, All, IfOk, IfSome, Ok, length, slice_index, sum_by};
ghost use Rattle.sx_base.specs.Ranges.{most_amount, most_assets};
ghost use Rattle.sx_bytes.specs.Grammar.{MayDecodeOrStray};
ghost use Rattle.sx_state.specs.Decoding.{account_list_at, offer_list_at};
ghost use Rattle.sx_ledger.specs.Ledger.{balance_at, ids, most_accounts, most_offers, offered};
ghost use Rattle.sx_state.specs.SoundOffers.{AreAhead};

use crate::account_decoding::account_list_by;
use crate::account_reading::account_list;
use crate::entry_sums::{Sums, entry_sums, entry_sums_by};
use crate::offer_decoding::{Ahead, accounts_and_ahead, entries_seen, move_to};
use crate::offer_reading::sound_list;
use crate::offer_standing::all_stand_by;
use std::alloc::Global;
use std::thread::Threads;
use sx_bytes::{NoMemory, ReadError, Reader};
use sx_ledger::{Account, AccountIndex, Offer, Offers};

// How many accounts or offers are worth a thread of their own. To decode them, and to look the owners of offers up,
// takes half a millisecond or more, and to start a thread a small part of that.
const WORTH_A_THREAD: usize = 8_192;

// What reads the accounts and the offers of a state.
pub trait EntryReader {
    // What a call takes for granted: of threads, that they may share what makes them.
    ghost is_ready: { Type 0 };

    // The accounts at the place, and the offers after them where these were decoded meanwhile.
    fn accounts(
        &self,
        alloc: Global,
        from: &mut Reader,
        version: u8,
        assets: u8,
    ) -> Result<(Vec<Account>, Option<Ahead>), ReadError>
        requires ready { is_ready }
        requires some { 1 ≤ assets }
        requires few { assets ≤ most_assets }
        ensures exact { MayDecodeOrStray (λ read. read.0.items) (account_list_at version assets from.old) from.new result }
        ensures ahead { IfOk result (λ read. IfSome read.1 (λ ahead. AreAhead assets from.new ahead.offers ahead.end)) };

    // The offers at the place, by these accounts, of which the ids are given, or none where anything is amiss. They may
    // be decoded already.
    fn sound_offers(
        &self,
        alloc: Global,
        from: &mut Reader,
        assets: u8,
        index: &AccountIndex,
        accounts: &[Account],
        ahead: Option<Ahead>,
    ) -> Result<Option<Offers>, NoMemory>
        requires ready { is_ready }
        requires some { 1 ≤ assets }
        requires few { assets ≤ most_assets }
        requires indexed { index.now ≡ ids accounts.now }
        requires ahead { IfSome ahead (λ ahead. AreAhead assets from.old ahead.offers ahead.end) }
        ensures sound { IfOk result (λ read. IfSome read (λ offers. offer_list_at accounts.now assets from.old ≡ Ok (offers, from.new))) }
        ensures same { from.new.bytes ≡ from.old.bytes }
        ensures onward { from.old.place ≤ from.new.place };

    // What all accounts hold and what is on offer, of each asset.
    fn sums_of(&self, accounts: &[Account], offers: &[Offer]) -> Sums
        requires ready { is_ready }
        requires few_assets { All (λ account. length account.balances ≤ most_assets) accounts.now }
        requires few_accounts { length accounts.now ≤ most_accounts }
        requires in_range { All (λ account. All (λ balance. balance ≤ most_amount) account.balances) accounts.now }
        requires few_offers { length offers.now ≤ most_offers }
        ensures held { (asset : ℕ) → asset < most_assets → slice_index result.held asset ≡ sum_by (balance_at asset) accounts.now }
        ensures held_small { All (λ sum. sum ≤ length accounts.now * 2 ^ 62) result.held }
        ensures on_offer { (asset : ℕ) → asset < most_assets → slice_index result.on_offer asset ≡ sum_by (offered asset) offers.now }
        ensures on_offer_small { All (λ sum. sum ≤ length offers.now * 2 ^ 62) result.on_offer };
}

// This thread alone.
#[derive(Drop)]
pub struct Alone;

impl EntryReader for Alone {
    ghost is_ready = { Unit {0} };

    fn accounts(
        &self,
        alloc: Global,
        from: &mut Reader,
        version: u8,
        assets: u8,
    ) -> Result<(Vec<Account>, Option<Ahead>), ReadError> {
        Ok((account_list(alloc, from, version, assets)?, None))
    }

    fn sound_offers(
        &self,
        alloc: Global,
        from: &mut Reader,
        assets: u8,
        index: &AccountIndex,
        accounts: &[Account],
        _: Option<Ahead>,
    ) -> Result<Option<Offers>, NoMemory> {
        sound_list(alloc, from, assets, index, accounts)
    }

    fn sums_of(&self, accounts: &[Account], offers: &[Offer]) -> Sums {
        entry_sums(accounts, offers)
    }
}

// At most so many threads, each with a part of the entries, and one more at most while accounts and offers are decoded.
#[derive(Drop)]
pub struct Spread<'a, R> {
    pub rt: &'a R,
    pub workers: u32,
}

// How many of so many workers are worth starting for so many entries.
fn threads_for(entries: usize, workers: u32) -> usize
    ensures { 1 ≤ result }
{
    (entries / WORTH_A_THREAD).clamp(1, (workers as usize).max(1))
}

// How many threads decode so many accounts while others decode the offers. One thread fills the memory of all offers
// before the others start, so two are free for the accounts until then.
fn threads_beside_offers(accounts: usize, workers: u32) -> usize
    ensures { 1 ≤ result }
{
    threads_for(accounts, workers).min(2)
}

// How many of so many threads add up the accounts: their part of the threads is that of all entries, so that all are
// done at about the same time. One thread at least is left for the offers.
fn account_share(threads: usize, accounts: usize, offers: usize) -> usize
    requires { 2 ≤ threads }
    ensures some { 1 ≤ result }
    ensures left { result < threads }
{
    let share = (accounts.saturating_add(offers) / threads).max(1);
    (accounts / share).clamp(1, threads - 1)
}

impl<'a, R: Threads + Sync> EntryReader for Spread<'a, R> {
    ghost use Rattle.std.specs.Thread.{IsSync};

    ghost is_ready = { IsSync R.row };

    fn accounts(
        &self,
        alloc: Global,
        from: &mut Reader,
        version: u8,
        assets: u8,
    ) -> Result<(Vec<Account>, Option<Ahead>), ReadError> {
        let Ok(seen) = entries_seen(from, version, assets) else {
            return Ok((account_list(alloc, from, version, assets)?, None));
        };
        let (accounts, offers) = (seen.accounts as usize, seen.offers as usize);
        let threads = threads_for(offers, self.workers);
        if threads < 2 {
            let threads = threads_for(accounts, self.workers);
            let accounts = account_list_by(self.rt, threads, alloc, from, version, assets)?;
            return Ok((accounts, None));
        }
        let beside = threads_beside_offers(accounts, self.workers);
        accounts_and_ahead(
            self.rt,
            threads - 1,
            beside,
            alloc,
            from,
            seen.begin,
            version,
            assets,
        )
    }

    #[tactic(auto, using(crate::proofs::SoundOffers::all_listed))]
    fn sound_offers(
        &self,
        alloc: Global,
        from: &mut Reader,
        assets: u8,
        index: &AccountIndex,
        accounts: &[Account],
        ahead: Option<Ahead>,
    ) -> Result<Option<Offers>, NoMemory> {
        let Some(Ahead { offers, end }) = ahead else {
            return sound_list(alloc, from, assets, index, accounts);
        };
        if !move_to(from, end) {
            return Ok(None);
        }
        let threads = threads_for(offers.items().len(), self.workers);
        let mut told = vec![in alloc; false; offers.items().len()]?;
        if !all_stand_by(self.rt, threads, index, accounts, offers.items(), &mut told) {
            return Ok(None);
        }
        Ok(Some(offers))
    }

    fn sums_of(&self, accounts: &[Account], offers: &[Offer]) -> Sums {
        let threads = threads_for(accounts.len() + offers.len(), self.workers);
        if threads < 2 {
            return entry_sums(accounts, offers);
        }
        let share = account_share(threads, accounts.len(), offers.len());
        entry_sums_by(self.rt, share, threads - share, accounts, offers)
    }
}
