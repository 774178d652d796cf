//! Whether an offer has its owner.

ghost use Rattle.std.specs.Prelude.{◌≡◌};
ghost use Rattle.sx_ledger.specs.Ledger.{has_owner as is_owned, ids};

use sx_ledger::{Account, AccountIndex, Offer};

// Whether the account of an offer is among these accounts, of which the ids are given, and has used
// the offer's sequence number.
pub fn has_owner(index: &AccountIndex, accounts: &[Account], offer: &Offer) -> bool
    requires { index.now ≡ ids accounts.now }
    ensures { result ≡ is_owned accounts.now offer.now }
{
    match index.find(offer.account) {
        Some(place) => accounts[place as usize].window.has_used(offer.seq),
        None => false,
    }
}
