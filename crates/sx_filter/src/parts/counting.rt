//! Whether a ledger has room for candidates in parts.

ghost use Rattle.std.specs.Prelude.{◌≡◌, ◌+◌, ◌^◌, ◌<◌, ◌≤◌, length};
ghost use Rattle.std.specs.List.{flat_map};
ghost use Rattle.sx_filter.specs.Additions.{AreAdditions};
ghost use Rattle.sx_outcome.specs.Room.{room_for};
ghost use Rattle.sx_tx.specs.Transactions.{most_transactions};

use sx_ledger::Ledger;
use sx_outcome::{Additions, NoRoom, additions_of, room_for_additions};
use sx_tx::{TxList, TxParts};

// How many candidates stand in all lists.
pub(crate) fn count_of(lists: &[TxList]) -> usize
    requires { length (flat_map (λ list. list) lists.now) ≤ most_transactions }
    ensures { result ≡ length (flat_map (λ list. list) lists.now) }
{
    let mut count = 0;
    for list in lists {
        count += list.items().len();
    }
    count
}

// What some candidates and others would add together.
pub(crate) fn together(some: Additions, others: Additions) -> Additions
    requires few_accounts { some.accounts + others.accounts < 2 ^ 32 }
    requires few_offers { some.offers + others.offers < 2 ^ 32 }
    ensures accounts { result.accounts ≡ some.accounts + others.accounts }
    ensures offers { result.offers ≡ some.offers + others.offers }
{
    Additions {
        accounts: some.accounts + others.accounts,
        offers: some.offers + others.offers,
    }
}

// What the candidates of all parts would add, counted in one part after the other.
fn added_in_turn(parts: &[TxList]) -> Additions
    requires few { length (flat_map (λ part. part) parts.now) ≤ most_transactions }
    ensures { AreAdditions (flat_map (λ part. part) parts.now) result }
{
    let mut all = Additions {
        accounts: 0,
        offers: 0,
    };
    for part in parts {
        let more = additions_of(part.items());
        all = together(all, more);
    }
    all
}

/// Whether a ledger has room for candidates. It takes no memory.
pub fn room_for_parts(ledger: &Ledger, candidates: &TxParts) -> Result<(), NoRoom>
    requires few { length candidates.now ≤ most_transactions }
    ensures { result ≡ room_for ledger.now candidates.now }
{
    room_for_additions(ledger, added_in_turn(candidates.parts()))
}
