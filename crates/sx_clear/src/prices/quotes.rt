//! The quotes of offers.

ghost use Rattle.std.specs.Prelude.{◌≡◌, IfOk};
ghost use Rattle.sx_multi.specs.Quotes.{quote_of as the_quote_of, quotes_of as the_quotes_of};

use std::alloc::Global;
use sx_bytes::NoMemory;
use sx_curve::Quote;
use sx_ledger::Offer;

// What an offer says of price and amount.
pub(crate) fn quote_of(offer: &Offer) -> Quote
    ensures { result ≡ the_quote_of offer.now }
{
    Quote {
        sell: offer.sell,
        buy: offer.buy,
        limit: offer.limit,
        amount: offer.amount,
    }
}

// The quotes of offers, in their order.
pub(crate) fn quotes_of(alloc: Global, offers: &[Offer]) -> Result<Vec<Quote>, NoMemory>
    ensures { IfOk result (λ quotes. quotes.items ≡ the_quotes_of offers.now) }
{
    let quotes = offers.iter().map(|offer| quote_of(offer)).collect(alloc)?;
    Ok(quotes)
}
