//! Writing a state. What is written is its one encoding, and where memory runs out it is taken back.

ghost use Rattle.std.specs.Prelude.{◌≡◌, ◌≤◌, ◌++◌, length, OnOk, OnErr};
ghost use Rattle.std.specs.List.{flat_map};
ghost use Rattle.byteorder.specs.Endian.{big_bytes};
ghost use Rattle.sx_bytes.specs.Written.{Begins};
ghost use Rattle.sx_ledger.specs.Ledger.{IsLedger};
ghost use Rattle.sx_state.specs.Encoding.{window_bytes, account_bytes, offer_bytes, opening_bytes, state_bytes};
ghost use Rattle.sx_state.specs.Laws.{longest_state};

use crate::sizes::{ACCOUNT_BYTES, FRAME_BYTES, OFFER_BYTES, map_bytes};
use sx_bytes::{NoMemory, Writer};
use sx_ledger::{Account, Ledger, Offer, Parts};
use sx_price::Price;
use sx_tx::Window;

#[tactic(auto, using(sx_bytes::proofs::Written::begins, sx_bytes::proofs::Written::begins_then))]
fn put_prices(to: &mut Writer, prices: &[Price]) -> Result<(), NoMemory>
    ensures ok { OnOk result (to.new ≡ to.old ++ flat_map (big_bytes 8) prices.now) }
    ensures err { OnErr result (Begins to.old to.new) }
{
    for price in prices {
        to.put_u64(price.get())?;
    }
    Ok(())
}

// Balances, or roundings.
#[tactic(auto, using(sx_bytes::proofs::Written::begins, sx_bytes::proofs::Written::begins_then))]
fn put_units(to: &mut Writer, units: &[u64]) -> Result<(), NoMemory>
    ensures ok { OnOk result (to.new ≡ to.old ++ flat_map (big_bytes 8) units.now) }
    ensures err { OnErr result (Begins to.old to.new) }
{
    for number in units {
        to.put_u64(*number)?;
    }
    Ok(())
}

#[tactic(auto, using(sx_bytes::proofs::Written::begins, sx_bytes::proofs::Written::begins_then))]
fn put_window(to: &mut Writer, version: u8, window: &Window) -> Result<(), NoMemory>
    ensures ok { OnOk result (to.new ≡ to.old ++ window_bytes version window.now) }
    ensures err { OnErr result (Begins to.old to.new) }
{
    to.put_u64(window.last)?;
    if version == 1 {
        return Ok(());
    }
    to.put_u64(window.used)
}

#[tactic(auto, using(sx_bytes::proofs::Written::begins, sx_bytes::proofs::Written::begins_then))]
fn put_account(to: &mut Writer, version: u8, account: &Account) -> Result<(), NoMemory>
    ensures ok { OnOk result (to.new ≡ to.old ++ account_bytes version account.now) }
    ensures err { OnErr result (Begins to.old to.new) }
{
    to.put_u64(account.id.0)?;
    put_window(to, version, &account.window)?;
    put_units(to, account.balances.items())
}

/// Appends the account as a state of this version has it, and nothing if memory runs out.
#[tactic(auto, using(sx_bytes::proofs::Written::begins_cut))]
pub fn write_account(to: &mut Writer, version: u8, account: &Account) -> Result<(), NoMemory>
    ensures ok { OnOk result (to.new ≡ to.old ++ account_bytes version account.now) }
    ensures err { OnErr result (to.new ≡ to.old) }
{
    let before = to.bytes().len();
    let written = put_account(to, version, account);
    if written.is_err() {
        to.cut(before);
    }
    written
}

/// Appends accounts as a state of this version has them. Where memory runs out, some of their bytes may stand there.
#[tactic(auto, using(sx_bytes::proofs::Written::begins, sx_bytes::proofs::Written::begins_then))]
pub fn write_accounts(to: &mut Writer, version: u8, accounts: &[Account]) -> Result<(), NoMemory>
    ensures ok { OnOk result (to.new ≡ to.old ++ flat_map (account_bytes version) accounts.now) }
    ensures err { OnErr result (Begins to.old to.new) }
{
    for account in accounts {
        put_account(to, version, account)?;
    }
    Ok(())
}

#[tactic(auto, using(sx_bytes::proofs::Written::begins, sx_bytes::proofs::Written::begins_then))]
fn put_offer(to: &mut Writer, offer: &Offer) -> Result<(), NoMemory>
    ensures ok { OnOk result (to.new ≡ to.old ++ offer_bytes offer.now) }
    ensures err { OnErr result (Begins to.old to.new) }
{
    to.put_u8(offer.sell.get())?;
    to.put_u8(offer.buy.get())?;
    to.put_u64(offer.limit.get())?;
    to.put_u64(offer.account.0)?;
    to.put_u64(offer.seq.get())?;
    to.put_u64(offer.amount.get())
}

/// Appends offers as a state has them. Where memory runs out, some of their bytes may stand there.
#[tactic(auto, using(sx_bytes::proofs::Written::begins, sx_bytes::proofs::Written::begins_then))]
pub fn write_offers(to: &mut Writer, offers: &[Offer]) -> Result<(), NoMemory>
    ensures ok { OnOk result (to.new ≡ to.old ++ flat_map offer_bytes offers.now) }
    ensures err { OnErr result (Begins to.old to.new) }
{
    for offer in offers {
        put_offer(to, offer)?;
    }
    Ok(())
}

// What stands before the accounts, their number included.
#[tactic(auto, using(sx_bytes::proofs::Written::begins, sx_bytes::proofs::Written::begins_then))]
fn put_opening(to: &mut Writer, parts: &Parts) -> Result<(), NoMemory>
    requires { IsLedger parts.now }
    ensures ok { OnOk result (to.new ≡ to.old ++ opening_bytes parts.now) }
    ensures err { OnErr result (Begins to.old to.new) }
{
    to.put_u8(parts.version)?;
    to.put_u64(parts.height)?;
    to.put_u8(parts.prices.items().len() as u8)?;
    put_prices(to, parts.prices.items())?;
    put_units(to, parts.rounding.items())?;
    to.put_u32(parts.accounts.items().len() as u32)
}

#[tactic(auto, using(sx_bytes::proofs::Written::begins, sx_bytes::proofs::Written::begins_then))]
fn put_state(to: &mut Writer, parts: &Parts) -> Result<(), NoMemory>
    requires { IsLedger parts.now }
    ensures ok { OnOk result (to.new ≡ to.old ++ state_bytes parts.now) }
    ensures err { OnErr result (Begins to.old to.new) }
{
    put_opening(to, parts)?;
    write_accounts(to, parts.version, parts.accounts.items())?;
    to.put_u32(parts.offers.items().len() as u32)?;
    write_offers(to, parts.offers.items())
}

/// Appends the payload of the state of a ledger, which is its one encoding. Where memory runs out, nothing is appended.
#[tactic(auto, using(sx_bytes::proofs::Written::begins_cut))]
pub fn write_state(to: &mut Writer, ledger: &Ledger) -> Result<(), NoMemory>
    ensures ok { OnOk result (to.new ≡ to.old ++ state_bytes ledger.now) }
    ensures err { OnErr result (to.new ≡ to.old) }
{
    let before = to.bytes().len();
    let written = put_state(to, ledger.parts());
    if written.is_err() {
        to.cut(before);
    }
    written
}

/// Appends what the payload of the state of a ledger has before the accounts, their number included. After them come the
/// number of the offers in four bytes, and the offers. Where memory runs out, some of the bytes may stand there.
pub fn write_opening(to: &mut Writer, ledger: &Ledger) -> Result<(), NoMemory>
    ensures ok { OnOk result (to.new ≡ to.old ++ opening_bytes ledger.now) }
    ensures err { OnErr result (Begins to.old to.new) }
    ensures rest { state_bytes ledger.now ≡ opening_bytes ledger.now ++ (flat_map (account_bytes ledger.now.version) ledger.now.accounts
        ++ (big_bytes 4 (length ledger.now.offers) ++ flat_map offer_bytes ledger.now.offers)) }
{
    put_opening(to, ledger.parts())
}

/// How many bytes the payload of the state of a ledger has, at most [`LONGEST_STATE`]. It takes no memory.
pub fn state_length(ledger: &Ledger) -> u32
    ensures exact { result ≡ length (state_bytes ledger.now) }
    ensures bound { result ≤ longest_state }
{
    let assets = ledger.assets();
    let account = ACCOUNT_BYTES + map_bytes(ledger.version()) + 8 * assets;
    FRAME_BYTES + 16 * assets + ledger.accounts() * account + OFFER_BYTES * ledger.offers()
}
