//! Accounts.

use sx_base::{AccountId, Balances};
use sx_bytes::ListOf;
use sx_tx::Window;

/// An account: who holds, which of its sequence numbers were used, and the whole units held of each
/// asset, at the asset's number.
#[derive(Debug, Drop)]
pub struct Account {
    pub id: AccountId,
    pub window: Window,
    pub balances: Balances,
}

/// A list of accounts.
pub type Accounts = ListOf<Account>;
