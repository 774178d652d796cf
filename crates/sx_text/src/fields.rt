//! The fields of reasons, each after its name.

ghost use Rattle.std.specs.Prelude.{◌≡◌, ◌++◌, OnOk, codes, string_bytes};
ghost use Rattle.std.specs.Fmt.{decimal, signed_decimal};
ghost use Rattle.sx_text.specs.Texts.{cut_text, fields_text, have_said, pair_text, said_real};

use crate::lines::put_word;
use sx_base::{AccountId, AssetId};
use sx_block::{Digest, Invalid};
use sx_bytes::NoMemory;
use sx_dual::Cut;
use sx_ledger::Static;

/// What is there and what the block says.
pub fn put_have_said(to: &mut String, have: u64, said: u64) -> Result<(), NoMemory>
    ensures { OnOk result (string_bytes to.new ≡ string_bytes to.old ++ have_said have said) }
{
    write!(to, " have {have} said {said}")?;
    Ok(())
}

/// What the block says and what is real, as digests.
pub fn put_digests(to: &mut String, said: &Digest, real: &Digest) -> Result<(), NoMemory>
    ensures { OnOk result (string_bytes to.new ≡ string_bytes to.old ++ said_real said.now real.now) }
{
    let alloc = *to.allocator();
    let said = hex::encode(alloc, said.bytes())?;
    let real = hex::encode(alloc, real.bytes())?;
    write!(to, " said {said} real {real}")?;
    Ok(())
}

/// The index of a transaction.
pub fn put_index(to: &mut String, index: u32) -> Result<(), NoMemory>
    ensures { OnOk result (string_bytes to.new ≡ string_bytes to.old ++ (codes " index " ++ decimal index)) }
{
    write!(to, " index {index}")?;
    Ok(())
}

/// The index of a transaction that the ledger refuses by itself, and the number of that refusal.
pub fn put_refused(to: &mut String, index: u32, why: Static) -> Result<(), NoMemory>
    ensures { OnOk result (string_bytes to.new ≡ string_bytes to.old ++ fields_text (Invalid.Tx index why)) }
{
    let number = why.number();
    write!(to, " index {index} static {number}")?;
    Ok(())
}

/// How many there are, how many come, and how many there may be.
pub fn put_crowd(to: &mut String, have: u32, more: u32, limit: u32) -> Result<(), NoMemory>
    ensures { OnOk result
        (string_bytes to.new ≡ string_bytes to.old ++ fields_text (Invalid.Crowded have more limit)) }
{
    write!(to, " have {have} more {more} limit {limit}")?;
    Ok(())
}

/// An account and an asset, what it holds of it, and what it is debited.
pub fn put_overdraft(
    to: &mut String,
    account: AccountId,
    asset: AssetId,
    opening: u64,
    debits: u128,
) -> Result<(), NoMemory>
    ensures { OnOk result (string_bytes to.new ≡ string_bytes to.old
        ++ fields_text (Invalid.Overdrawn account asset opening debits)) }
{
    let account = account.0;
    let asset = asset.get();
    write!(
        to,
        " account {account} asset {asset} opening {opening} debits {debits}"
    )?;
    Ok(())
}

/// The same, and what it is credited.
pub fn put_overspending(
    to: &mut String,
    account: AccountId,
    asset: AssetId,
    opening: u64,
    credits: u128,
    debits: u128,
) -> Result<(), NoMemory>
    ensures { OnOk result (string_bytes to.new ≡ string_bytes to.old
        ++ fields_text (Invalid.Overspent account asset opening credits debits)) }
{
    let account = account.0;
    let asset = asset.get();
    write!(
        to,
        " account {account} asset {asset} opening {opening} credits {credits} debits {debits}"
    )?;
    Ok(())
}

/// A pair of assets, the least and the greatest value that it may trade, and the value that it trades.
pub fn put_outside(
    to: &mut String,
    sell: AssetId,
    buy: AssetId,
    low: u128,
    high: u128,
    y: u128,
) -> Result<(), NoMemory>
    ensures { OnOk result (string_bytes to.new ≡ string_bytes to.old
        ++ fields_text (Invalid.Outside sell buy low high y)) }
{
    put_pair(to, sell, buy)?;
    write!(to, " low {low} high {high} y {y}")?;
    Ok(())
}

/// An asset, and what is sold and bought of it.
pub fn put_unbalance(to: &mut String, asset: AssetId, out: u128, into: u128) -> Result<(), NoMemory>
    ensures { OnOk result (string_bytes to.new ≡ string_bytes to.old ++ fields_text (Invalid.Unbalanced asset out into)) }
{
    let asset = asset.get();
    write!(to, " asset {asset} out {out} into {into}")?;
    Ok(())
}

/// A pair of assets, its gain, and the value that it trades.
pub fn put_slack(
    to: &mut String,
    sell: AssetId,
    buy: AssetId,
    gain: i64,
    y: u128,
) -> Result<(), NoMemory>
    ensures { OnOk result (string_bytes to.new ≡ string_bytes to.old ++ fields_text (Invalid.Slack sell buy gain y)) }
{
    put_pair(to, sell, buy)?;
    write!(to, " gain {gain} y {y}")?;
    Ok(())
}

/// A set of assets, as eight hexadecimal digits.
pub fn put_cut(to: &mut String, cut: Cut) -> Result<(), NoMemory>
    ensures { OnOk result (string_bytes to.new ≡ string_bytes to.old ++ cut_text cut) }
{
    let digits = hex::encode(*to.allocator(), cut.0.to_be_bytes().as_slice())?;
    write!(to, "{digits}")?;
    Ok(())
}

/// A set of assets after its name.
pub fn put_no_cut(to: &mut String, cut: Cut) -> Result<(), NoMemory>
    ensures { OnOk result (string_bytes to.new ≡ string_bytes to.old ++ fields_text (Invalid.NoCut cut)) }
{
    put_word(to, " cut ")?;
    put_cut(to, cut)
}

/// An asset, and what is said and real of its rounding.
pub fn put_rounding(to: &mut String, asset: AssetId, said: u64, real: u64) -> Result<(), NoMemory>
    ensures { OnOk result (string_bytes to.new ≡ string_bytes to.old ++ fields_text (Invalid.Rounding asset said real)) }
{
    let asset = asset.get();
    write!(to, " asset {asset} said {said} real {real}")?;
    Ok(())
}

fn put_pair(to: &mut String, sell: AssetId, buy: AssetId) -> Result<(), NoMemory>
    ensures { OnOk result (string_bytes to.new ≡ string_bytes to.old ++ pair_text sell buy) }
{
    let sell = sell.get();
    let buy = buy.get();
    write!(to, " sell {sell} buy {buy}")?;
    Ok(())
}
