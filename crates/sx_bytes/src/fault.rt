//! What can be wrong with the bytes of a format.

ghost use Rattle.std.specs.Prelude.{◌≡◌, Some};
ghost use Rattle.sx_bytes.specs.declared.fault.ReadError.TheVariants as read_error;
ghost use Rattle.sx_bytes.specs.Fault.{number_of, name_of, fault_of_short};

use crate::memory::NoMemory;
use std::alloc::{AllocError, AllocFailed};
use std::fmt;
use thiserror::Error;

/// The form faults, each with its number in the table of faults.
#[derive(Clone, Copy, Debug, PartialEq, Eq, Hash)]
pub enum Form {
    /// 1: the input ends inside a record or before a record that has to be there, or a field
    /// passes the end of its payload.
    Short = 1,
    /// 2: a tag, kind, outcome, refusal or flag that is not listed for this place.
    Tag = 2,
    /// 3: an amount, balance or rounding out of range.
    AmountRange = 3,
    /// 4: a limit price out of range.
    LimitRange = 4,
    /// 5: a sequence number out of range.
    SeqRange = 5,
    /// 6: an asset out of range.
    AssetRange = 6,
    /// 7: an entry that does not come strictly after the one before it.
    Order = 7,
    /// 8: the total of an asset is above its limit.
    Total = 8,
    /// 9: a count above its limit.
    TooMany = 9,
    /// 10: bytes after the last field, or after the last record.
    Rest = 10,
    /// 11: a price out of range.
    PriceRange = 11,
    /// 12: a trade that does not come strictly after the one before it.
    TradeOrder = 12,
    /// 13: the length of a record is above its limit.
    TooLong = 13,
    /// 14: a version that is not known.
    Version = 14,
    /// 15: a height out of range.
    HeightRange = 15,
    /// 16: a count of assets out of range.
    AssetCount = 16,
    /// 17: an offer without its account, or of a sequence number that its account has not used.
    Owner = 17,
    /// 18: the exponent of μ out of range.
    MuRange = 18,
    /// 19: the value of a trade out of range.
    ValueRange = 19,
    /// 20: a cut that names an asset that is not there.
    CutRange = 20,
    /// 21: a count of actors out of range, or a turn of an actor that is not there.
    Actor = 21,
    /// 22: used sequence numbers that reach out of range.
    UsedRange = 22,
    /// 23: the place of an account out of range.
    PlaceRange = 23,
}

impl Form {
    /// The fault's number in the table of faults.
    pub fn number(self) -> u8
        ensures { result ≡ number_of self }
    {
        self as u8
    }

    /// The name of the fault, as the texts of the program print it.
    pub fn name(self) -> &'static str
        ensures { result.now ≡ name_of self }
    {
        match self {
            Form::Short => "Short",
            Form::Tag => "Tag",
            Form::AmountRange => "AmountRange",
            Form::LimitRange => "LimitRange",
            Form::SeqRange => "SeqRange",
            Form::AssetRange => "AssetRange",
            Form::Order => "Order",
            Form::Total => "Total",
            Form::TooMany => "TooMany",
            Form::Rest => "Rest",
            Form::PriceRange => "PriceRange",
            Form::TradeOrder => "TradeOrder",
            Form::TooLong => "TooLong",
            Form::Version => "Version",
            Form::HeightRange => "HeightRange",
            Form::AssetCount => "AssetCount",
            Form::Owner => "Owner",
            Form::MuRange => "MuRange",
            Form::ValueRange => "ValueRange",
            Form::CutRange => "CutRange",
            Form::Actor => "Actor",
            Form::UsedRange => "UsedRange",
            Form::PlaceRange => "PlaceRange",
        }
    }
}

impl fmt::Display for Form {
    ghost output = { λ fault. Some (name_of fault) };

    fn fmt<W: fmt::Write>(&self, f: &mut fmt::Formatter<W>) -> fmt::Result {
        f.write_str(self.name())
    }
}

/// A form fault, and where it begins: an offset in bytes from the beginning of what was decoded.
#[derive(Clone, Copy, Debug, PartialEq, Eq, Hash, Error)]
#[error("at {at}: {fault}")]
pub struct FormFault {
    pub at: u64,
    pub fault: Form,
}

/// Fewer bytes are left than a field takes. `at` is the length of the slice, the offset of the
/// first byte that is missing.
#[derive(Clone, Copy, Debug, PartialEq, Eq, Hash, Error)]
#[error("the bytes end at {at}")]
pub struct Short {
    pub at: usize,
}

impl From<Short> for FormFault {
    ghost from_gives = { λ short fault. fault ≡ fault_of_short short };

    fn from(short: Short) -> FormFault {
        FormFault {
            at: short.at as u64,
            fault: Form::Short,
        }
    }
}

/// Why bytes could not be decoded: their form, or no memory.
#[derive(Clone, Copy, Debug, PartialEq, Eq, Error)]
pub enum ReadError {
    /// Memory ran out. It may be answered in place of any other answer.
    #[error("out of memory")]
    NoMemory,
    /// The first fault from left to right.
    #[error("{0}")]
    Form(FormFault),
}

impl From<NoMemory> for ReadError {
    ghost from_gives = { λ _ error. error ≡ read_error.NoMemory };

    fn from(_error: NoMemory) -> ReadError {
        ReadError::NoMemory
    }
}

impl From<AllocError> for ReadError {
    ghost from_gives = { λ _ error. error ≡ read_error.NoMemory };

    fn from(_error: AllocError) -> ReadError {
        ReadError::NoMemory
    }
}

impl<T: Drop> From<AllocFailed<T>> for ReadError {
    ghost from_gives = { λ _ error. error ≡ read_error.NoMemory };

    fn from(_error: AllocFailed<T>) -> ReadError {
        ReadError::NoMemory
    }
}

impl From<FormFault> for ReadError {
    ghost from_gives = { λ fault error. error ≡ read_error.Form fault };

    fn from(fault: FormFault) -> ReadError {
        ReadError::Form(fault)
    }
}

impl From<Short> for ReadError {
    ghost from_gives = { λ short error. error ≡ read_error.Form (fault_of_short short) };

    fn from(short: Short) -> ReadError {
        ReadError::Form(FormFault::from(short))
    }
}
