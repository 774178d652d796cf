//! Supply curves that grow by one quote after another.

ghost use Rattle.std.specs.Prelude.{◌≡◌, ◌+◌, ◌^◌, ◌≤◌, ◌++◌, [], ◌∷◌, false, true, IfNone, IfOk, IfSome, OnErr};
ghost use Rattle.sx_curve.specs.Curves.{AreInOrder, AreQuotes};
ghost use Rattle.sx_curve.specs.Quotes.{amounts, pair_of, weighted_amounts};

use crate::begins::{PAIRS, place_of, set_begins};
use crate::curves::Curves;
use crate::points::{NOTHING, Point};
use crate::quote::Quote;
use crate::sums::Sums;
use std::alloc::Global;
use std::marker::Model;
use sx_bytes::NoMemory;

/// The supply curves of quotes that come one after another, by the asset that they sell, the asset that they buy and
/// the limit. Contracts see the list of the quotes, which itself takes no memory.
#[derive(Debug, Drop)]
pub struct CurvesBuilder {
    points: Vec<Point>,
    // Where pairs begin, by their places, and how many have begun: those up to that of the last quote.
    begins: Vec<usize>,
    begun: usize,
}

impl Model for CurvesBuilder {
    ghost use Rattle.std.specs.Prelude.{List, take};
    ghost use Rattle.sx_curve.specs.declared.quote.Quote.{Quote as AnyQuote};
    ghost use Rattle.sx_curve.specs.Listed.{AreBuilt, quotes_of};

    ghost Value = { List AnyQuote };

    ghost view = { λ b. quotes_of b.points.items (take b.begun b.begins.items) };

    ghost invariant = { λ b. AreBuilt (quotes_of b.points.items (take b.begun b.begins.items)) b.points.items b.begins.items b.begun };
}

impl CurvesBuilder {
    /// Curves of no quotes yet, with memory for so many. `NoMemory` is the only error.
    pub fn new(alloc: Global, count: usize) -> Result<CurvesBuilder, NoMemory>
        ensures { IfOk result (λ builder. builder ≡ []) }
    {
        Ok(CurvesBuilder {
            points: Vec::with_capacity(alloc, count)?,
            begins: vec![in alloc; 0; PAIRS + 1]?,
            begun: 0,
        })
    }

    // The sums of the quotes so far that are of the same pair as this one, or `None` where one that is there should
    // stand after it.
    fn sums_before(&self, quote: &Quote) -> Option<Sums>
        ensures amount { IfSome result (λ sums. sums.amount ≡ amounts (pair_of quote.now.sell quote.now.buy self.now)) }
        ensures weighted { IfSome result (λ sums. sums.weighted ≡ weighted_amounts (pair_of quote.now.sell quote.now.buy self.now)) }
        ensures stands { IfSome result (λ _. AreInOrder (self.now ++ quote.now ∷ [])) }
        ensures late { IfNone result (AreInOrder (self.now ++ quote.now ∷ []) → ⊥) }
    {
        let place = place_of(quote.sell, quote.buy);
        if place >= self.begun {
            return Some(NOTHING);
        }
        let last = &self.points[self.points.len() - 1];
        if place + 1 < self.begun || quote.limit.get() < last.limit.get() {
            return None;
        }
        Some(last.sums())
    }

    /// Takes in a quote, unless one that it should stand before is there already, and answers whether it took it in.
    /// The amounts of the quotes of its pair, with its own, add up to at most `2^62`. `NoMemory`, which comes where there
    /// is memory for fewer quotes, is the only error. Nothing has changed then, nor where the quote is passed over.
    pub fn push(&mut self, quote: &Quote) -> Result<bool, NoMemory>
        requires fits { amounts (pair_of quote.now.sell quote.now.buy self.old) + quote.now.amount ≤ 2 ^ 62 }
        ensures taken { IfOk result (λ taken. taken ≡ true → self.new ≡ self.old ++ quote.now ∷ []) }
        ensures late { IfOk result (λ taken. taken ≡ false → AreInOrder (self.old ++ quote.now ∷ []) → ⊥) }
        ensures passed { IfOk result (λ taken. taken ≡ false → self.new ≡ self.old) }
        ensures kept { OnErr result (self.new ≡ self.old) }
    {
        let Some(before) = self.sums_before(quote) else {
            return Ok(false);
        };
        let count = self.points.len();
        self.points.push(Point::after(before, quote))?;
        let place = place_of(quote.sell, quote.buy);
        if self.begun <= place {
            set_begins(&mut self.begins, self.begun, place + 1, count);
            self.begun = place + 1;
        }
        Ok(true)
    }

    /// The curves of all quotes that were taken in, if there are 1 to 32 assets. Each quote sells an asset below that
    /// number for another one, and the amounts that sell an asset add up to at most `2^62`. It takes no memory.
    pub fn finish(self, assets: u32) -> Curves
        requires { AreQuotes assets self }
        ensures assets { result.assets ≡ assets }
        ensures quotes { result.quotes ≡ self }
    {
        let CurvesBuilder {
            points,
            begins,
            begun,
        } = self;
        let mut begins = begins;
        set_begins(&mut begins, begun, PAIRS + 1, points.len());
        Curves::of(assets, points, begins)
    }
}
