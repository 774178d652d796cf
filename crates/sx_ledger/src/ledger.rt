//! The state between two blocks, and what it tells.

ghost use Rattle.std.specs.Prelude.{◌≡◌, ◌<◌, ◌≤◌, ◌^◌, length, slice_index, slice_get, IfSome, Some};
ghost use Rattle.sx_base.specs.Ranges.{most_amount, most_assets};
ghost use Rattle.sx_ledger.specs.Ledger.{IsLedger, assets_of, balance_at, migrated};
ghost use Rattle.sx_ledger.specs.Ledger.{most_accounts, most_height, most_offers, most_version};

use crate::account::Account;
use crate::offer::Offer;
use crate::parts::Parts;
use std::marker::Model;
use sx_base::AssetId;
use sx_price::Price;

/// The state between two blocks. Contracts see its parts, which keep what `IsLedger` says.
#[derive(Debug, Drop)]
pub struct Ledger {
    parts: Parts,
}

impl Model for Ledger {
    ghost use Rattle.sx_ledger.specs.declared.parts.Parts.{Parts};
    ghost use Rattle.sx_ledger.specs.Ledger.{IsLedger};

    ghost Value = { Parts };

    ghost view = { λ l. l.parts };

    ghost invariant = { λ l. IsLedger l.parts };
}

impl Ledger {
    /// The most accounts.
    pub const MOST_ACCOUNTS: u32 = 65_536;

    /// The most offers.
    pub const MOST_OFFERS: u32 = 262_144;

    /// The greatest height.
    pub const MOST_HEIGHT: u64 = (1 << 63) - 1;

    /// The newest version. In version 1 a sequence number that a block skipped is lost; in version 2 it
    /// stays open.
    pub const NEWEST: u8 = 2;

    /// The ledger of these parts, which keep what a ledger keeps.
    pub fn of(parts: Parts) -> Ledger
        requires { IsLedger parts }
        ensures { result ≡ parts }
    {
        Ledger { parts }
    }

    /// Gives the parts back. It takes no memory.
    pub fn into_parts(self) -> Parts
        ensures parts { result ≡ self }
        ensures kept { IsLedger result }
    {
        self.parts
    }

    /// The parts that the ledger is made of.
    pub fn parts(&self) -> &Parts
        ensures parts { result.now ≡ self.now }
        ensures kept { IsLedger self.now }
    {
        &self.parts
    }

    /// The version, which is 1 or 2.
    pub fn version(&self) -> u8
        ensures version { result ≡ self.now.version }
        ensures some { 1 ≤ result }
        ensures few { result ≤ most_version }
        ensures kept { IsLedger self.now }
    {
        self.parts.version
    }

    /// The same ledger in the newest version, in which no number above an account's last one is marked
    /// if none was before. It takes no memory.
    pub fn migrate(self) -> Ledger
        ensures { result ≡ migrated self }
    {
        let parts = self.into_parts();
        Ledger::of(Parts {
            version: Ledger::NEWEST,
            height: parts.height,
            prices: parts.prices,
            rounding: parts.rounding,
            accounts: parts.accounts,
            offers: parts.offers,
        })
    }

    /// How many blocks came before, at most `2^63 - 1`.
    pub fn height(&self) -> u64
        ensures height { result ≡ self.now.height }
        ensures in_range { result ≤ most_height }
        ensures kept { IsLedger self.now }
    {
        self.parts.height
    }

    /// How many assets there are, from 1 to 32.
    pub fn assets(&self) -> u32
        ensures number { result ≡ assets_of self.now }
        ensures some { 1 ≤ result }
        ensures few { result ≤ most_assets }
        ensures kept { IsLedger self.now }
    {
        self.parts.prices.items().len() as u32
    }

    /// The price of an asset, in units of `2^-24`.
    pub fn price(&self, asset: AssetId) -> Price
        requires { asset < assets_of self.now }
        ensures price { result ≡ slice_index self.now.prices asset }
        ensures kept { IsLedger self.now }
    {
        self.parts.prices.items()[asset.get() as usize]
    }

    /// The units of an asset that are kept by rounding.
    pub fn rounding(&self, asset: AssetId) -> u64
        requires { asset < assets_of self.now }
        ensures units { result ≡ slice_index self.now.rounding asset }
        ensures in_range { result ≤ most_amount }
        ensures kept { IsLedger self.now }
    {
        self.parts.rounding.items()[asset.get() as usize]
    }

    /// How many accounts there are, at most 65,536.
    pub fn accounts(&self) -> u32
        ensures number { result ≡ length self.now.accounts }
        ensures few { result ≤ most_accounts }
        ensures kept { IsLedger self.now }
    {
        self.parts.accounts.items().len() as u32
    }

    /// The account at a place. The accounts stand in the order of their ids, from place 0.
    pub fn account(&self, place: u32) -> &Account
        requires { place < length self.now.accounts }
        ensures account { slice_get self.now.accounts place ≡ Some result.now }
        ensures kept { IsLedger self.now }
    {
        &self.parts.accounts.items()[place as usize]
    }

    /// The whole units of an asset that the account at a place holds.
    pub fn balance(&self, place: u32, asset: AssetId) -> u64
        requires place { place < length self.now.accounts }
        requires asset { asset < assets_of self.now }
        ensures units { IfSome (slice_get self.now.accounts place) (λ account. result ≡ balance_at asset account) }
        ensures in_range { result ≤ most_amount }
    {
        self.account(place).balances.items()[asset.get() as usize]
    }

    /// How many offers there are, at most 262,144.
    pub fn offers(&self) -> u32
        ensures number { result ≡ length self.now.offers }
        ensures few { result ≤ most_offers }
        ensures kept { IsLedger self.now }
    {
        self.parts.offers.items().len() as u32
    }

    /// The offer at a place. The offers stand in the order of their keys, from place 0.
    pub fn offer(&self, place: u32) -> &Offer
        requires { place < length self.now.offers }
        ensures offer { slice_get self.now.offers place ≡ Some result.now }
        ensures kept { IsLedger self.now }
    {
        &self.parts.offers.items()[place as usize]
    }
}
