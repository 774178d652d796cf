//! Cancelled offers in the order of accounts, in which the candidates of a part stand.

ghost use Rattle.std.specs.Prelude.{◌≡◌};
ghost use Rattle.sx_filter.specs.Cancellations.{cancellation_of};

use sx_base::AccountId;
use sx_ledger::Key;

// An offer that is cancelled, ordered by its account first.
#[derive(Clone, Copy, Debug, PartialEq, Eq, PartialOrd, Ord)]
pub(crate) struct Cancellation {
    account: AccountId,
    key: Key,
}

impl Cancellation {
    // The one of a key.
    pub(crate) fn of(key: Key) -> Cancellation
        ensures { result ≡ cancellation_of key }
    {
        Cancellation {
            account: key.account,
            key,
        }
    }
}
