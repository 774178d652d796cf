//! A transaction.

use crate::kind::Kind;
use sx_base::{AccountId, Seq};

/// A transaction: the one to which `account` gave the sequence number `seq`.
#[derive(Clone, Copy, Debug, PartialEq, Eq)]
pub struct Tx {
    pub account: AccountId,
    pub seq: Seq,
    pub kind: Kind,
}

impl Tx {
    /// How many bytes the encoding of a transaction has at least.
    pub const LEAST_BYTES: usize = 25;
}
