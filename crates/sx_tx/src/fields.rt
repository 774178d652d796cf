//! The fields that ledgers and transactions are made of: an account, a sequence number, an asset, an
//! amount and a limit. Each is read whole and then tested. A refusal leaves the reader where it was,
//! and its offset is that of the field, or that of the end of the bytes for `Short`. They take no
//! memory.

ghost use Rattle.std.specs.Prelude.{◌≡◌, ◌≤◌};
ghost use Rattle.sx_bytes.specs.Cursor.{Decodes};
ghost use Rattle.sx_tx.specs.TransactionDecoding.{id_at, seq_at, asset_at, amount_at, limit_at};

use sx_base::{AccountId, Amount, AssetId, Seq};
use sx_bytes::{Form, FormFault, Reader};
use sx_price::Limit;

/// The account at the place, in eight bytes: any number. The one fault is `Short`.
#[inline]
#[tactic(auto, using(sx_bytes::proofs::DecodingSteps::number_onward))]
pub fn read_id(from: &mut Reader) -> Result<AccountId, FormFault>
    ensures exact { Decodes (λ id. id.0) (id_at from.old) from.old from.new result }
    ensures same { from.new.bytes ≡ from.old.bytes }
    ensures onward { from.old.place ≤ from.new.place }
{
    Ok(AccountId(from.get_u64()?))
}

/// The sequence number at the place, in eight bytes. The faults are `Short`, and `SeqRange` of what
/// is no sequence number.
#[inline]
pub fn read_seq(from: &mut Reader) -> Result<Seq, FormFault>
    ensures exact { Decodes (λ x. x) (seq_at from.old) from.old from.new result }
    ensures same { from.new.bytes ≡ from.old.bytes }
    ensures onward { from.old.place ≤ from.new.place }
{
    let raw = from.field_u64(Seq::FIRST, Seq::LAST, Form::SeqRange)?;
    Ok(Seq::new(raw).unwrap())
}

/// The asset at the place, in one byte. The faults are `Short`, and `AssetRange` of what is no
/// asset's number.
#[inline]
pub fn read_asset(from: &mut Reader) -> Result<AssetId, FormFault>
    ensures exact { Decodes (λ x. x) (asset_at from.old) from.old from.new result }
    ensures same { from.new.bytes ≡ from.old.bytes }
    ensures onward { from.old.place ≤ from.new.place }
{
    let raw = from.field_u8(0, AssetId::LIMIT - 1, Form::AssetRange)?;
    Ok(AssetId::new(raw).unwrap())
}

/// The amount at the place, in eight bytes. The faults are `Short`, and `AmountRange` of what is no
/// amount.
#[inline]
pub fn read_amount(from: &mut Reader) -> Result<Amount, FormFault>
    ensures exact { Decodes (λ x. x) (amount_at from.old) from.old from.new result }
    ensures same { from.new.bytes ≡ from.old.bytes }
    ensures onward { from.old.place ≤ from.new.place }
{
    let units = from.field_u64(Amount::LEAST, Amount::MOST, Form::AmountRange)?;
    Ok(Amount::new(units).unwrap())
}

/// The limit at the place, in eight bytes. The faults are `Short`, and `LimitRange` of what is no
/// limit.
#[inline]
pub fn read_limit(from: &mut Reader) -> Result<Limit, FormFault>
    ensures exact { Decodes (λ x. x) (limit_at from.old) from.old from.new result }
    ensures same { from.new.bytes ≡ from.old.bytes }
    ensures onward { from.old.place ≤ from.new.place }
{
    let raw = from.field_u64(Limit::LEAST, Limit::MOST, Form::LimitRange)?;
    Ok(Limit::new(raw).unwrap())
}
