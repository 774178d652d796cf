//! The supply curve of each pair.

ghost use Rattle.std.specs.Prelude.{◌≡◌, ◌*◌, ◌≤◌, ◌^◌, [], true, length, IfOk};
ghost use Rattle.std.specs.Bool.{OnTrue};
ghost use Rattle.std.specs.List.Sorted.{IsPermutation};
ghost use Rattle.sx_curve.specs.Curves.{AreCurves, AreInOrder, AreQuotes, DoPairsFit, IsPairRange, IsUpTo};
ghost use Rattle.sx_curve.specs.Listed.{quotes_of};
ghost use Rattle.sx_curve.specs.Quotes.{amounts, pair_of, quotes_below, weighted_amounts};

use crate::begins::place_of;
use crate::curves_builder::CurvesBuilder;
use crate::limits::count_below;
use crate::points::{Point, sums_at};
use crate::quote::Quote;
use crate::sums::Sums;
use std::alloc::Global;
use std::marker::Model;
use sx_base::AssetId;
use sx_bytes::NoMemory;

/// The supply curves of a market, ready for [`Curves::below`]: a point of each quote, in the order of the
/// quotes. Contracts see the number of assets and the list of the quotes, which itself takes no memory, since
/// the points tell it.
#[derive(Debug, Drop)]
pub struct Curves {
    number: u32,
    points: Vec<Point>,
    begins: Vec<usize>,
}

impl Model for Curves {
    ghost use Rattle.sx_curve.specs.Curves.{AreCurves, Market};
    ghost use Rattle.sx_curve.specs.Listed.{quotes_of};

    ghost Value = { Market };

    ghost view = { λ c. record { assets = c.number; quotes = quotes_of c.points.items c.begins.items } };

    ghost invariant = { λ c. AreCurves c.number (quotes_of c.points.items c.begins.items) c.points.items c.begins.items };
}

// Whether a quote may stand before another one.
fn is_up_to(one: &Quote, other: &Quote) -> bool
    ensures { OnTrue result (IsUpTo one.now other.now) }
{
    let here = place_of(one.sell, one.buy);
    let there = place_of(other.sell, other.buy);
    here < there || here == there && one.limit.get() <= other.limit.get()
}

// Whether quotes are in order.
fn are_in_order(quotes: &[Quote]) -> bool
    ensures { OnTrue result (AreInOrder quotes.now) }
{
    for place in 1..quotes.len() {
        if !is_up_to(&quotes[place - 1], &quotes[place]) {
            return false;
        }
    }
    true
}

// The quotes in order.
fn sorted(quotes: Vec<Quote>) -> Vec<Quote>
    ensures all { IsPermutation quotes.items result.items }
    ensures in_order { AreInOrder result.items }
{
    let mut quotes = quotes;
    if !are_in_order(&quotes) {
        quotes.sort_unstable();
    }
    quotes
}

// The curves of quotes in order, so far.
fn built(alloc: Global, quotes: &[Quote]) -> Result<CurvesBuilder, NoMemory>
    requires in_order { AreInOrder quotes.now }
    requires fit { DoPairsFit quotes.now }
    ensures { IfOk result (λ builder. builder ≡ quotes.now) }
{
    let mut builder = CurvesBuilder::new(alloc, quotes.len())?;
    for quote in quotes {
        builder.push(quote)?;
    }
    Ok(builder)
}

impl Curves {
    // The curves of which these are the points, and where the pairs begin.
    pub(crate) fn of(assets: u32, points: Vec<Point>, begins: Vec<usize>) -> Curves
        requires { AreCurves assets (quotes_of points.items begins.items) points.items begins.items }
        ensures assets { result.assets ≡ assets }
        ensures quotes { result.quotes ≡ quotes_of points.items begins.items }
    {
        Curves {
            number: assets,
            points,
            begins,
        }
    }

    /// The curves of these quotes, if there are 1 to 32 assets. Each quote sells an asset below that
    /// number for another one, and the amounts that sell an asset add up to at most `2^62`. `NoMemory`
    /// is the only error. It takes the list, of which the order is free, sorts it where it stands
    /// unless it is in order, and goes over it: n log n for n quotes, and n for those in order.
    pub fn build(alloc: Global, assets: u32, quotes: Vec<Quote>) -> Result<Curves, NoMemory>
        requires { AreQuotes assets quotes.items }
        ensures assets { IfOk result (λ curves. curves.assets ≡ assets) }
        ensures quotes { IfOk result (λ curves. IsPermutation quotes.items curves.quotes) }
    {
        let sorted = sorted(quotes);
        let builder = built(alloc, &sorted)?;
        Ok(builder.finish(assets))
    }

    /// The number of assets.
    pub fn assets(&self) -> u32
        ensures assets { result ≡ self.now.assets }
        ensures quotes { AreQuotes self.now.assets self.now.quotes }
    {
        self.number
    }

    /// The number of quotes.
    pub fn count(&self) -> usize
        ensures { result ≡ length self.now.quotes }
    {
        self.points.len()
    }

    // Where the quotes of a pair begin, and where they end.
    fn ends_of(&self, sell: AssetId, buy: AssetId) -> (usize, usize)
        ensures range { IsPairRange self.now.quotes sell buy result.0 result.1 }
        ensures ordered { result.0 ≤ result.1 }
        ensures within { result.1 ≤ length self.now.quotes }
    {
        let place = place_of(sell, buy);
        (self.begins[place], self.begins[place + 1])
    }

    /// Whether no quote sells `sell` for `buy`, by two look-ups. Where it answers true there is none.
    pub fn is_bare(&self, sell: AssetId, buy: AssetId) -> bool
        ensures { result ≡ true → pair_of sell buy self.now.quotes ≡ [] }
    {
        let (begin, end) = self.ends_of(sell, buy);
        begin == end
    }

    /// The sums over the quotes that sell `sell` for `buy` at a limit of at most `num` over `den`, in
    /// units of `2^-24`: over those with limit times `den` at most `num`. With a price of the sold
    /// asset times `2^24` over a price of the bought asset these are the quotes that may trade at the
    /// two prices. It takes as many steps as the number of the pair's quotes has binary digits, or
    /// twice as many, and no memory.
    pub fn below(&self, sell: AssetId, buy: AssetId, num: u128, den: u128) -> Sums
        requires { den ≤ 2 ^ 60 }
        ensures amount { result.amount ≡ amounts (quotes_below sell buy num den self.now.quotes) }
        ensures weighted { result.weighted ≡ weighted_amounts (quotes_below sell buy num den self.now.quotes) }
        ensures amount_range { result.amount ≤ 2 ^ 62 }
        ensures weighted_range { result.weighted ≤ 2 ^ 56 * result.amount }
    {
        let mut near = 0;
        self.below_near(sell, buy, num, den, &mut near)
    }

    /// The same sums, found from a guess, which may be any number. `near` is afterwards the number of
    /// the quotes that the sums are over: a good guess for a limit near this one. With d quotes between
    /// the guess and the answer it takes twice as many steps as d has binary digits, and two where the
    /// guess is right. Of a pair without quotes it answers at once.
    pub fn below_near(
        &self,
        sell: AssetId,
        buy: AssetId,
        num: u128,
        den: u128,
        near: &mut usize,
    ) -> Sums
        requires { den ≤ 2 ^ 60 }
        ensures amount { result.amount ≡ amounts (quotes_below sell buy num den self.now.quotes) }
        ensures weighted { result.weighted ≡ weighted_amounts (quotes_below sell buy num den self.now.quotes) }
        ensures amount_range { result.amount ≤ 2 ^ 62 }
        ensures weighted_range { result.weighted ≤ 2 ^ 56 * result.amount }
    {
        let (begin, end) = self.ends_of(sell, buy);
        self.below_here(sell, buy, begin, end, num, den, near)
    }

    /// The sums of a pair up to two limits, each as [`Curves::below_near`] tells it: up to `low` over
    /// `den`, and up to `high` over `den`. The pair is looked up once.
    pub fn below_both(
        &self,
        sell: AssetId,
        buy: AssetId,
        low: u128,
        high: u128,
        den: u128,
        near_low: &mut usize,
        near_high: &mut usize,
    ) -> (Sums, Sums)
        requires { den ≤ 2 ^ 60 }
        ensures low_amount { result.0.amount ≡ amounts (quotes_below sell buy low den self.now.quotes) }
        ensures low_weighted { result.0.weighted ≡ weighted_amounts (quotes_below sell buy low den self.now.quotes) }
        ensures high_amount { result.1.amount ≡ amounts (quotes_below sell buy high den self.now.quotes) }
        ensures high_weighted { result.1.weighted ≡ weighted_amounts (quotes_below sell buy high den self.now.quotes) }
        ensures low_range { result.0.amount ≤ 2 ^ 62 }
        ensures high_range { result.1.amount ≤ 2 ^ 62 }
        ensures low_weighted_range { result.0.weighted ≤ 2 ^ 56 * result.0.amount }
        ensures high_weighted_range { result.1.weighted ≤ 2 ^ 56 * result.1.amount }
    {
        let (begin, end) = self.ends_of(sell, buy);
        let up_to_low = self.below_here(sell, buy, begin, end, low, den, near_low);
        let up_to_high = self.below_here(sell, buy, begin, end, high, den, near_high);
        (up_to_low, up_to_high)
    }

    // The sums of a pair up to a limit, found from a guess. The pair's quotes are those from `begin` to
    // `end`.
    #[inline(always)]
    fn below_here(
        &self,
        sell: AssetId,
        buy: AssetId,
        begin: usize,
        end: usize,
        num: u128,
        den: u128,
        near: &mut usize,
    ) -> Sums
        requires den { den ≤ 2 ^ 60 }
        requires range { IsPairRange self.now.quotes sell buy begin end }
        requires ordered { begin ≤ end }
        requires within { end ≤ length self.now.quotes }
        ensures amount { result.amount ≡ amounts (quotes_below sell buy num den self.now.quotes) }
        ensures weighted { result.weighted ≡ weighted_amounts (quotes_below sell buy num den self.now.quotes) }
        ensures amount_range { result.amount ≤ 2 ^ 62 }
        ensures weighted_range { result.weighted ≤ 2 ^ 56 * result.amount }
    {
        let pair = &self.points[begin..end];
        let count = count_below(pair, num, den, *near);
        *near = count;
        sums_at(pair, count)
    }
}
