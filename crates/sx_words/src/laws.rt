//! The laws of words and commands.

ghost use Rattle.sx_words.specs.Laws.{SpellsOneWay, ReadsSpelling, NeedsName};

/// A number has one spelling, a command is read from its own words, and no words or an unknown first
/// word are no command.
pub fn word_laws()
    ensures numbers { SpellsOneWay }
    ensures spelling { ReadsSpelling }
    ensures names { NeedsName }
{}
