//! Who writes the lines of many entries: this thread, or several.

ghost use Rattle.std.specs.Prelude.{◌≡◌, ◌++◌, OnOk, string_bytes};
ghost use Rattle.std.specs.List.{flat_map};
ghost use Rattle.sx_text.specs.States.{account_line, offer_line};
ghost use Rattle.sx_text.specs.Transactions.{tx_line};

use crate::entries::put_each;
use crate::spreading::put_spread;
use crate::states::{AccountLine, OfferLine};
use crate::transactions::TxLine;
use std::thread::Threads;
use sx_bytes::NoMemory;
use sx_ledger::{Account, Offer};
use sx_tx::Tx;

/// Who writes lines.
pub trait Hands {
    // What a call takes for granted: of threads, that they may share what makes them.
    ghost is_ready: { Type 0 };

    // Appends the lines of accounts of a state of this version.
    fn put_accounts(
        &self,
        to: &mut String,
        version: u8,
        accounts: &[Account],
    ) -> Result<(), NoMemory>
        requires { is_ready }
        ensures { OnOk result
            (string_bytes to.new ≡ string_bytes to.old ++ flat_map (account_line version) accounts.now) };

    // Appends the lines of offers.
    fn put_offers(&self, to: &mut String, offers: &[Offer]) -> Result<(), NoMemory>
        requires { is_ready }
        ensures { OnOk result (string_bytes to.new ≡ string_bytes to.old ++ flat_map offer_line offers.now) };

    // Appends the lines of transactions.
    fn put_txs(&self, to: &mut String, txs: &[Tx]) -> Result<(), NoMemory>
        requires { is_ready }
        ensures { OnOk result (string_bytes to.new ≡ string_bytes to.old ++ flat_map tx_line txs.now) };
}

/// This thread alone.
#[derive(Drop)]
pub struct Alone;

impl Hands for Alone {
    ghost is_ready = { Unit {0} };

    fn put_accounts(
        &self,
        to: &mut String,
        version: u8,
        accounts: &[Account],
    ) -> Result<(), NoMemory> {
        put_each(&AccountLine { version }, to, accounts)
    }

    fn put_offers(&self, to: &mut String, offers: &[Offer]) -> Result<(), NoMemory> {
        put_each(&OfferLine, to, offers)
    }

    fn put_txs(&self, to: &mut String, txs: &[Tx]) -> Result<(), NoMemory> {
        put_each(&TxLine, to, txs)
    }
}

/// At most so many threads, each with a part of the entries.
#[derive(Drop)]
pub struct Spread<'a, R> {
    pub rt: &'a R,
    pub workers: u32,
}

impl<'a, R: Threads + Sync> Hands for Spread<'a, R> {
    ghost use Rattle.std.specs.Thread.{IsSync};

    ghost is_ready = { IsSync R.row };

    fn put_accounts(
        &self,
        to: &mut String,
        version: u8,
        accounts: &[Account],
    ) -> Result<(), NoMemory> {
        put_spread(
            self.rt,
            self.workers,
            &AccountLine { version },
            to,
            accounts,
        )
    }

    fn put_offers(&self, to: &mut String, offers: &[Offer]) -> Result<(), NoMemory> {
        put_spread(self.rt, self.workers, &OfferLine, to, offers)
    }

    fn put_txs(&self, to: &mut String, txs: &[Tx]) -> Result<(), NoMemory> {
        put_spread(self.rt, self.workers, &TxLine, to, txs)
    }
}
