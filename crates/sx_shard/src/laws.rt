//! What a reservation does, in the steps of the core.
ghost use Rattle.sx_shard.specs.Reserve.{LooksAndTakes, LastTakeWins, ReservesWhatIsThere, RefusesTooLittle, TriesWhileEnough};

/// A reservation is one look and then takes: those that are lost and, where it succeeds, one that is
/// won. What it saw last of the purse covers the need where it succeeds, and else is less; it tries
/// again only where what it saw is enough.
pub fn reserve_laws()
    ensures looks_and_takes { LooksAndTakes }
    ensures last_take_wins { LastTakeWins }
    ensures reserves { ReservesWhatIsThere }
    ensures refuses { RefusesTooLittle }
    ensures tries { TriesWhileEnough }
{}
