//! The text of a state.

ghost use Rattle.std.specs.Prelude.{◌≡◌, ◌++◌, ◌≤◌, OnOk, length, string_bytes};
ghost use Rattle.std.specs.List.{flat_map};
ghost use Rattle.sx_ledger.specs.Ledger.{IsLedger};
ghost use Rattle.sx_text.specs.Pieces.{indexed};
ghost use Rattle.sx_text.specs.States.{account_line, asset_line, offer_line, state_line, state_text, used_text};

use crate::entries::{Line, room};
use crate::hands::Hands;
use crate::lines::{put_spaced, put_word};
use std::alloc::Global;
use sx_bytes::NoMemory;
use sx_ledger::{Account, Ledger, Offer, Parts};
use sx_price::Price;

fn put_state_line(to: &mut String, parts: &Parts) -> Result<(), NoMemory>
    ensures { OnOk result (string_bytes to.new ≡ string_bytes to.old ++ state_line parts.now) }
{
    let version = parts.version;
    let height = parts.height;
    let assets = parts.prices.items().len();
    write!(
        to,
        "state version {version} height {height} assets {assets}\n"
    )?;
    Ok(())
}

// The price of each asset, and what rounding keeps of it.
fn put_assets(to: &mut String, prices: &[Price], rounding: &[u64]) -> Result<(), NoMemory>
    requires { length prices.now ≤ length rounding.now }
    ensures { OnOk result
        (string_bytes to.new ≡ string_bytes to.old ++ indexed (asset_line rounding.now) prices.now) }
{
    for asset in 0..prices.len() {
        let price = prices[asset].get();
        let kept = rounding[asset];
        write!(to, "asset {asset} price {price} rounding {kept}\n")?;
    }
    Ok(())
}

// The map of used sequence numbers, where the version has one.
fn put_used(to: &mut String, version: u8, used: u64) -> Result<(), NoMemory>
    ensures { OnOk result (string_bytes to.new ≡ string_bytes to.old ++ used_text version used) }
{
    if version == 1 {
        return put_word(to, "");
    }
    write!(to, " used {used}")?;
    Ok(())
}

/// Accounts, as a state of this version shows them.
#[derive(Clone, Copy)]
pub struct AccountLine {
    pub version: u8,
}

impl Line<Account> for AccountLine {
    ghost line = { λ shape. account_line shape.version };

    fn put(&self, to: &mut String, account: &Account) -> Result<(), NoMemory> {
        let id = account.id.0;
        let last = account.window.last;
        write!(to, "account {id} last {last}")?;
        put_used(to, self.version, account.window.used)?;
        put_word(to, " balances")?;
        put_spaced(to, account.balances.items())?;
        put_word(to, "\n")
    }
}

/// Offers, as a state shows them.
#[derive(Clone, Copy)]
pub struct OfferLine;

impl Line<Offer> for OfferLine {
    ghost line = { λ _. offer_line };

    fn put(&self, to: &mut String, offer: &Offer) -> Result<(), NoMemory> {
        let sell = offer.sell.get();
        let buy = offer.buy.get();
        let limit = offer.limit.get();
        let account = offer.account.0;
        let seq = offer.seq.get();
        let amount = offer.amount.get();
        write!(
            to,
            "offer {sell} {buy} limit {limit} account {account} seq {seq} amount {amount}\n"
        )?;
        Ok(())
    }
}

/// About how many bytes the lines of the accounts and the offers of a state take.
pub fn room_of_state(alloc: Global, ledger: &Ledger) -> Result<usize, NoMemory> {
    let parts = ledger.parts();
    let version = parts.version;
    let accounts = room(alloc, &AccountLine { version }, parts.accounts.items())?;
    let offers = room(alloc, &OfferLine, parts.offers.items())?;
    Ok(accounts.saturating_add(offers))
}

fn put_parts<H: Hands>(hands: &H, to: &mut String, parts: &Parts) -> Result<(), NoMemory>
    requires ready { H.is_ready }
    requires ledger { IsLedger parts.now }
    ensures { OnOk result (string_bytes to.new ≡ string_bytes to.old ++ state_text parts.now) }
{
    put_state_line(to, parts)?;
    put_assets(to, parts.prices.items(), parts.rounding.items())?;
    hands.put_accounts(to, parts.version, parts.accounts.items())?;
    hands.put_offers(to, parts.offers.items())
}

/// Appends the text of a state.
pub fn put_state<H: Hands>(hands: &H, to: &mut String, ledger: &Ledger) -> Result<(), NoMemory>
    requires { H.is_ready }
    ensures { OnOk result (string_bytes to.new ≡ string_bytes to.old ++ state_text ledger.now) }
{
    put_parts(hands, to, ledger.parts())
}
