//! Whether the total of each asset is in range.

ghost use Rattle.std.specs.Prelude.{◌≡◌, ℕ, ◌<◌, ◌≤◌, All, length, slice_index, nat_le};
ghost use Rattle.std.specs.List.{list_all};
ghost use Rattle.sx_base.specs.Ranges.{most_amount, most_assets};
ghost use Rattle.sx_ledger.specs.Ledger.{assets_of, most_accounts, most_offers, total_of};
ghost use Rattle.sx_state.specs.Decoding.{totals_fit as all_fit};

use crate::account_sums::add_balances;
use crate::entry_readers::EntryReader;
use crate::offer_sums::{MOST_ASSETS, add_sums};
use sx_base::Amount;
use sx_ledger::Parts;

// Adds up what there is of each asset.
fn add_all<E: EntryReader>(entry_reader: &E, totals: &mut [u128], parts: &Parts)
    requires ready { E.is_ready }
    requires zero { All (λ total. total ≡ 0) totals.old }
    requires assets { length totals.old ≡ assets_of parts.now }
    requires few_assets { assets_of parts.now ≤ most_assets }
    requires rounding { length parts.now.rounding ≡ assets_of parts.now }
    requires kept { All (λ units. units ≤ most_amount) parts.now.rounding }
    requires balances { All (λ account. length account.balances ≡ assets_of parts.now) parts.now.accounts }
    requires small { All (λ account. All (λ balance. balance ≤ most_amount) account.balances) parts.now.accounts }
    requires few_accounts { length parts.now.accounts ≤ most_accounts }
    requires few_offers { length parts.now.offers ≤ most_offers }
    ensures as_many { length totals.new ≡ length totals.old }
    ensures totals { (asset : ℕ) → asset < assets_of parts.now → slice_index totals.new asset ≡ total_of parts.now asset }
{
    let sums = entry_reader.sums_of(parts.accounts.items(), parts.offers.items());
    add_balances(totals, parts.rounding.items());
    add_sums(totals, &sums.held);
    add_sums(totals, &sums.on_offer);
}

fn are_in_range(totals: &[u128]) -> bool
    ensures { result ≡ list_all (λ total. nat_le total most_amount) totals.now }
{
    totals
        .iter()
        .all(|total| *total <= u128::from(Amount::MOST))
}

// Whether the total of each asset is in range: one pass over the accounts, and one over the offers.
pub fn totals_fit<E: EntryReader>(entry_reader: &E, parts: &Parts) -> bool
    requires ready { E.is_ready }
    requires few_assets { assets_of parts.now ≤ most_assets }
    requires rounding { length parts.now.rounding ≡ assets_of parts.now }
    requires kept { All (λ units. units ≤ most_amount) parts.now.rounding }
    requires balances { All (λ account. length account.balances ≡ assets_of parts.now) parts.now.accounts }
    requires small { All (λ account. All (λ balance. balance ≤ most_amount) account.balances) parts.now.accounts }
    requires few_accounts { length parts.now.accounts ≤ most_accounts }
    requires few_offers { length parts.now.offers ≤ most_offers }
    ensures { result ≡ all_fit parts.now (assets_of parts.now) }
{
    let mut room = [0; MOST_ASSETS];
    let totals = &mut room[..parts.prices.items().len()];
    add_all(entry_reader, totals, parts);
    are_in_range(totals)
}
