//! Lists of transactions.

use crate::tx::Tx;
use sx_bytes::{ListInParts, ListOf};

/// A list of transactions.
pub type TxList = ListOf<Tx>;

/// A list of transactions in parts, as several threads read or find them.
pub type TxParts = ListInParts<Tx>;

/// How many transactions the candidates or a block may have.
pub const MOST_TRANSACTIONS: u32 = 1_000_000;
