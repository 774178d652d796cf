//! What pairs trade within given bounds.

ghost use Rattle.std.specs.Prelude.{ℕ, ◌+◌, ◌*◌, ◌≤◌, IfOk};
ghost use Rattle.sx_fill.specs.Bounds.{HasBounds};
ghost use Rattle.sx_dual.specs.Tables.{high_of as high_in};
ghost use Rattle.sx_level.specs.Solved.{HaveDigits, most_searches};
ghost use Rattle.sx_clear.specs.TradeSearches.{most_clearing_searches};
ghost use Rattle.sx_clear.specs.TradedWithin.{HasNoLow, IsFreeTrade, IsTrade};

use std::alloc::Global;
use std::sync::ledger::Ledger;
use sx_bytes::NoMemory;
use sx_dual::{Bounds, Cut, Flow, Potentials};
use sx_fill::without_low;
use sx_level::{Solved, solve};
use sx_net::Steps;

/// What pairs trade.
#[derive(Drop)]
pub struct Trade {
    /// The value that each pair trades, in units of `2^-24`.
    pub flow: Flow,
    /// A potential for each asset: they show that no more value could be traded.
    pub potentials: Potentials,
    /// Where lower bounds were dropped, the cut that shows that no circulation keeps them.
    pub dropped: Option<Cut>,
}

// A circulation of greatest value within bounds of which each lower one is 0, since the cut shows that
// they cannot be kept. The flow that trades nothing is a circulation, so it is no cut that is found.
fn trade_freely<L: Ledger>(
    alloc: Global,
    bounds: &Bounds,
    cut: Cut,
    steps: &mut Steps<L>,
) -> Result<Trade, NoMemory>
    requires no_low { HasNoLow bounds.now }
    ensures traded { IfOk result (IsFreeTrade bounds.now cut) }
    ensures counted { (b : ℕ) → HaveDigits bounds.now.assets (high_in bounds.now) b
        → steps.new ≤ steps.old + most_searches bounds.now.assets b }
    ensures limited { steps.new ≤ steps.old + most_searches 32 103 }
    ensures rising { steps.old ≤ steps.new }
{
    match solve(alloc, bounds, steps)? {
        Solved::Best { flow, potentials } => Ok(Trade {
            flow,
            potentials,
            dropped: Some(cut),
        }),
        Solved::Cut(_) => unreachable!(),
    }
}

/// A circulation of greatest value within the bounds, which are values in units of `2^-24`, with potentials that show
/// it. Where there is none, lower bounds are dropped, and the cut shows why. `NoMemory` is the only error.
///
/// `steps` counts the searches of the circulation. For n assets and upper bounds below `2^b` these are at most twice
/// `(n + 1)(b + 1)(4n(n + 1) + 1)`, and never more than 29,000,400, whatever is answered.
pub fn trade_within<L: Ledger>(
    alloc: Global,
    bounds: Bounds,
    steps: &mut Steps<L>,
) -> Result<Trade, NoMemory>
    ensures traded { IfOk result (λ trade. (n : ℕ) (low high : ℕ → ℕ → ℕ) → HasBounds n low high bounds
        → IsTrade n low high trade) }
    ensures counted { (n : ℕ) (low high : ℕ → ℕ → ℕ) (b : ℕ) → HasBounds n low high bounds → HaveDigits n high b
        → steps.new ≤ steps.old + 2 * most_searches n b }
    ensures limited { steps.new ≤ steps.old + most_clearing_searches }
    ensures rising { steps.old ≤ steps.new }
{
    match solve(alloc, &bounds, steps)? {
        Solved::Best { flow, potentials } => Ok(Trade {
            flow,
            potentials,
            dropped: None,
        }),
        Solved::Cut(cut) => trade_freely(alloc, &without_low(bounds), cut, steps),
    }
}
