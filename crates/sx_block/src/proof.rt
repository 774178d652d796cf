//! What shows one account.

use crate::Digests;
use sx_ledger::Account;

/// What shows that an account stands at a place of a ledger of this version: the account, and the digests
/// beside the way from its leaf to the root, the lowest first.
#[derive(Debug, Drop)]
pub struct Proof {
    pub version: u8,
    pub place: u32,
    pub account: Account,
    pub siblings: Digests,
}
