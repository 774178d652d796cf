//! Laws of what trading and whole blocks leave.

ghost use Rattle.sx_block.specs.EffectLaws.{
  BlockCommits,
  BlockConserves,
  BlockDropsTheImpossible,
  BlockGetsItsValue,
  BlockGivesItsValue,
  BlockHeldFalls,
  BlockKeepsLedger,
  BlockKeepsRounding,
  BlocksChain,
  BlockTradesInFull,
  BlockTradesMost,
  BlockTradesWithinLimits,
  GivesWhatItHas,
  GivesLessThanOneMore,
  GetsLessThanOneLess,
  MustTradeInFull,
  OneInPart,
  OneTradesInPart,
  RoundingIsNeverNegative,
  TradeConserves,
  TradeFallsByRounding,
  TradeKeepsLedger,
  TradeKeepsRounding,
  TradesOnlyWithinLimit,
};

/// An offer never gives more than it has. What it gives is worth its value and less than one unit
/// more, and what it gets is worth no more than its value and less than one unit less.
pub fn fill_laws()
    ensures has { GivesWhatItHas }
    ensures gives { GivesLessThanOneMore }
    ensures gets { GetsLessThanOneLess }
{}

/// If a flow is balanced and no pair trades more than it may, an offer that trades may trade at the
/// prices, and one that must trade gives its whole amount if no pair trades less than it must. At most one
/// offer of a pair trades in part.
pub fn limit_laws()
    ensures within { TradesOnlyWithinLimit }
    ensures in_full { MustTradeInFull }
    ensures one_in_part { OneTradesInPart }
{}

/// If a flow is balanced and no pair trades more than it may, no more is got of an asset than is given, so
/// that rounding is never negative. With that rounding trading makes and loses nothing of any asset:
/// balances and offers fall by exactly the rounding, and the ledger's rounding rises by it. What it leaves
/// of a ledger is a ledger.
pub fn trade_laws()
    ensures rounding { RoundingIsNeverNegative }
    ensures conserves { TradeConserves }
    ensures falls { TradeFallsByRounding }
    ensures keeps_rounding { TradeKeepsRounding }
    ensures ledger { TradeKeepsLedger }
{}

/// What a valid block leaves of a ledger is a ledger with as much of each asset: balances and offers fall by
/// exactly the rounding that its header says, and the ledger's rounding rises by it. The next valid block
/// names that ledger as its parent. No circulation within the bounds trades more value. Each offer that
/// trades may trade; each one that must trade gives its whole amount, unless lower bounds were dropped, and
/// then no circulation keeps them; at most one offer of a pair trades in part. What an offer gives is worth
/// its value and less than one unit more, and what it gets is worth no more than its value and less than one
/// unit less.
pub fn block_effect_laws()
    ensures ledger { BlockKeepsLedger }
    ensures conserves { BlockConserves }
    ensures falls { BlockHeldFalls }
    ensures keeps_rounding { BlockKeepsRounding }
    ensures commits { BlockCommits }
    ensures chain { BlocksChain }
    ensures most { BlockTradesMost }
    ensures within { BlockTradesWithinLimits }
    ensures in_full { BlockTradesInFull }
    ensures dropped { BlockDropsTheImpossible }
    ensures one_in_part { OneInPart }
    ensures gives { BlockGivesItsValue }
    ensures gets { BlockGetsItsValue }
{}
