//! Whether a candidate fits into its part: whether no other candidate of the part stands in its way.

ghost use Rattle.std.specs.Prelude.{◌≡◌, ◌<◌, Some, length, slice_get};
ghost use Rattle.std.specs.List.Sorted.{IsSortedBy};
ghost use Rattle.sx_filter.specs.Alone.{is_covered, is_fit, is_twice};
ghost use Rattle.sx_filter.specs.Kept.{same_number};
ghost use Rattle.sx_filter.specs.Named.{AreOffers};
ghost use Rattle.sx_filter.specs.Verdicts.{IsVerdict};
ghost use Rattle.sx_ledger.specs.declared.parts.Parts.{Parts as Ledgers};
ghost use Rattle.sx_ledger.specs.Body.{tx_before};
ghost use Rattle.sx_tx.specs.declared.tx.Tx.{Tx as Transaction};

use crate::sift::cancellation::Cancellation;
use crate::sift::named::is_offer_taken;
use crate::sift::seen::Seen;
use sx_tx::Tx;

// Whether two candidates have one account and number.
fn have_one_number(one: &Tx, other: &Tx) -> bool
    ensures { result ≡ same_number one.now other.now }
{
    one.account.0 == other.account.0 && one.seq.get() == other.seq.get()
}

// Whether another candidate has the account and number of the one at a place. It would be a neighbour.
fn is_number_taken(txs: &[Tx], place: usize) -> bool
    requires place { place < length txs.now }
    requires sorted { IsSortedBy tx_before txs.now }
    ensures { (tx : Transaction) → slice_get txs.now place ≡ Some tx
        → result ≡ is_twice (same_number tx) txs.now }
{
    let tx = &txs[place];
    place > 0 && have_one_number(tx, &txs[place - 1])
        || place < txs.len() - 1 && have_one_number(tx, &txs[place + 1])
}

// Whether no candidate of its part stands in the way of the one at a place, of which the account is covered or not. The
// offers are those that candidates of the part cancel.
pub(crate) fn fits(txs: &[Tx], place: usize, offers: &Seen<Cancellation>, covered: bool) -> bool
    requires place { place < length txs.now }
    requires sorted { IsSortedBy tx_before txs.now }
    requires offers { AreOffers txs.now offers.now }
    ensures { (parts : Ledgers) → IsVerdict (is_covered parts txs.now) txs.now place covered
        → IsVerdict (is_fit parts txs.now) txs.now place result }
{
    let tx = &txs[place];
    if is_number_taken(txs, place) {
        return false;
    }
    if is_offer_taken(offers, tx) {
        return false;
    }
    covered
}
