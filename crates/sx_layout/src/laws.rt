//! Laws of layouts, of what candidates ask for, and of what closes a gathering.

ghost use Rattle.sx_layout.specs.AskedLaws.{AskedIsThere, AskedIsClear};
ghost use Rattle.sx_layout.specs.Marks.{ClosingGathers, MarksJoin, MarksGrow, MarksElsewhere};
ghost use Rattle.sx_layout.specs.PlanLaws.{PursesApart, BitsApart, PursesThere, BitsThere, WordsFit, NewIdsAreCreated, NewIdsAreFound, OtherIdsAreNot};

/// Of every layout: no two balances share a purse, and no two sequence numbers, offers or new ids share a
/// bit. There is a word at the spot of each, it has at the opening what belongs there, and its bit is
/// below 64. A shard has fewer than `2^31` words. The new ids are exactly those that candidates create,
/// each has a bit, and no other id has one.
pub fn layout_laws()
    ensures purses_apart { PursesApart }
    ensures bits_apart { BitsApart }
    ensures purses_there { PursesThere }
    ensures bits_there { BitsThere }
    ensures fit { WordsFit }
    ensures new_ids { NewIdsAreCreated }
    ensures new_ids_found { NewIdsAreFound }
    ensures others_not { OtherIdsAreNot }
{}

/// Of every candidate that the ledger does not refuse, on any number of shards: the words that it asks for
/// are there, and the bits that it asks for are clear at the opening.
pub fn asked_laws()
    ensures there { AskedIsThere }
    ensures clear { AskedIsClear }
{}

/// The marks of decided candidates grow with their list, candidate by candidate or part by part, and a
/// candidate leaves none in a shard that has neither its number nor what it asks for then.
pub fn marks_laws()
    ensures join { MarksJoin }
    ensures grow { MarksGrow }
    ensures elsewhere { MarksElsewhere }
{}

/// Whatever the order of steps and on how many shards: where the words of a gathering and the claims that
/// its outcomes stand for add up to the opening words, and each refusal is one that the closing words show,
/// the outcomes and the body of the accepted candidates are those of a gathering.
pub fn closing_law()
    ensures { ClosingGathers }
{}
