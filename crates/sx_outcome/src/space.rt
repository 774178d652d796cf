//! Whether a ledger has room for all that candidates ask for.

ghost use Rattle.std.specs.Prelude.{◌≡◌, ◌+◌, ◌≤◌, ◌<◌, ◌^◌, length, nat_lt, Ok, Err, if◌then◌else◌};
ghost use Rattle.sx_outcome.specs.Room.{room_for, room_for_more};
ghost use Rattle.sx_ledger.specs.Body.{created, made};
ghost use Rattle.sx_tx.specs.Transactions.{most_transactions};

use sx_ledger::Ledger;
use sx_tx::{Kind, Tx};
use thiserror::Error;

/// Why a ledger has no room for candidates. Where several reasons hold, the first counts.
#[derive(Clone, Copy, Debug, PartialEq, Eq, Error)]
pub enum NoRoom {
    /// The ledger has the greatest height, `2^63 - 1`, so no block may follow.
    #[error("no block may follow: the ledger has the greatest height")]
    Ended,
    /// The ledger has `have` accounts, or offers, and the candidates ask for `more`, but there may be
    /// only `limit`: 65,536 accounts or 262,144 offers. The accounts count before the offers.
    #[error("there are {have}, and no room for {more} more: the limit is {limit}")]
    Crowded { have: u32, more: u32, limit: u32 },
}

/// How many accounts candidates create, and how many offers they make.
#[derive(Clone, Copy, Debug, PartialEq, Eq)]
pub struct Additions {
    pub accounts: u32,
    pub offers: u32,
}

/// What candidates, at most 1,000,000, would add to a ledger if it passed them all. It takes no memory.
pub fn additions_of(candidates: &[Tx]) -> Additions
    requires { length candidates.now ≤ most_transactions }
    ensures accounts { result.accounts ≡ length (created candidates.now) }
    ensures offers { result.offers ≡ length (made candidates.now) }
    ensures few_accounts { result.accounts ≤ length candidates.now }
    ensures few_offers { result.offers ≤ length candidates.now }
{
    let mut accounts = 0;
    let mut offers = 0;
    for tx in candidates {
        match tx.kind {
            Kind::Create { .. } => accounts += 1,
            Kind::Offer { .. } => offers += 1,
            Kind::Pay { .. } => {}
            Kind::Cancel { .. } => {}
        }
    }
    Additions { accounts, offers }
}

// Whether there may be `more` of what there are `have` of.
fn check_space(have: u32, more: u32, limit: u32) -> Result<(), NoRoom>
    requires { have + more < 2 ^ 32 }
    ensures { result ≡ (if nat_lt limit (have + more) then Err (NoRoom.Crowded have more limit) else Ok tt) }
{
    if limit < have + more {
        return Err(NoRoom::Crowded { have, more, limit });
    }
    Ok(())
}

/// Whether a block may follow on a ledger, and so many more accounts and offers, at most 1,000,000 of each, would fit
/// beside those that are there. `Ended` comes exactly at the greatest height, else `Crowded` for the accounts exactly
/// where they would be more than 65,536, else for the offers exactly where they would be more than 262,144. It takes
/// no memory.
pub fn room_for_additions(ledger: &Ledger, more: Additions) -> Result<(), NoRoom>
    requires accounts { more.accounts ≤ most_transactions }
    requires offers { more.offers ≤ most_transactions }
    ensures { result ≡ room_for_more ledger.now more.accounts more.offers }
{
    if ledger.height() == Ledger::MOST_HEIGHT {
        return Err(NoRoom::Ended);
    }
    check_space(ledger.accounts(), more.accounts, Ledger::MOST_ACCOUNTS)?;
    check_space(ledger.offers(), more.offers, Ledger::MOST_OFFERS)
}

/// The same for all that candidates, at most 1,000,000, would add, whether or not the ledger refuses some by itself.
pub fn room(ledger: &Ledger, candidates: &[Tx]) -> Result<(), NoRoom>
    requires { length candidates.now ≤ most_transactions }
    ensures { result ≡ room_for ledger.now candidates.now }
{
    room_for_additions(ledger, additions_of(candidates))
}
