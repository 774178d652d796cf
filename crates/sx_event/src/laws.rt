//! The laws of the steps and of the rule, over all states.
ghost use Rattle.sx_event.specs.Laws.{LookKeeps, TakeKeeps, ClaimKeeps, SplitKeeps, JoinKeeps, RunsKeep, WonIsCovered, LostFindsLess, PursesFall, BitsStay, OthersStay, BitsRead, LowsRead, SetsRead, RangesRead, WholeHasAll};

/// Each of the five kinds of step keeps the rule, from every state that meets it.
pub fn step_laws()
    ensures look { LookKeeps }
    ensures take { TakeKeeps }
    ensures claim { ClaimKeeps }
    ensures split { SplitKeeps }
    ensures join { JoinKeeps }
{}

/// After every list of steps whose conditions hold, the rule holds.
pub fn runs_keep()
    ensures { RunsKeep }
{}

/// A Take that is won had its need in the purse, and one that is lost found less than it had seen.
/// No step raises a purse or clears a bit, or changes another actor's view, but for one that it joins.
pub fn word_laws()
    ensures won { WonIsCovered }
    ensures lost { LostFindsLess }
    ensures purses { PursesFall }
    ensures bits { BitsStay }
    ensures views { OthersStay }
{}

/// What the rule says of one bit, of one note, of the ranges, and of a view that has all candidates.
pub fn rule_laws()
    ensures bits { BitsRead }
    ensures lows { LowsRead }
    ensures sets { SetsRead }
    ensures ranges { RangesRead }
    ensures whole { WholeHasAll }
{}
