//! The words that `clap` is handed, and the numbers that it reads.

ghost use Rattle.std.specs.Prelude.{◌≡◌, ◌++◌, Some, true, ℕ};
ghost use Rattle.clap.specs.Words.{kind_of, subcommand_of, subcommand_rows_of, takes};
ghost use Rattle.clap.specs.declared.error.kind.ErrorKind.TheVariants as kind;
ghost use Rattle.sx_words.specs.Program.{id_of, program};
ghost use Rattle.sx_words.specs.Reading.{HasNumber, IsReadAs, OrNoMemory, begun, option_words, spelled_out, text_of};
ghost use Rattle.sx_words.specs.declared.fault.WordsFault.TheVariants as words_fault;

use crate::fault::WordsFault;
use crate::program::program;
use crate::setting::Setting;
use clap::error::ErrorKind;
use clap::{ArgMatches, Error};
use std::alloc::Global;

impl From<Error> for WordsFault {
    ghost from_gives = { λ error fault. kind_of error ≡ kind.OutOfMemory → fault ≡ words_fault.NoMemory };

    fn from(error: Error) -> WordsFault {
        match error.kind() {
            ErrorKind::OutOfMemory => WordsFault::NoMemory,
            _ => WordsFault::Usage,
        }
    }
}

/// The words of a command without its options.
pub(crate) fn begin<'a>(alloc: Global, name: &'a str) -> Result<Vec<&'a str>, WordsFault>
    ensures { OrNoMemory (λ words. spelled_out words.items ≡ begun name.entry.now) result }
{
    let mut words = Vec::new(alloc);
    words.push("speedex")?;
    words.push(name)?;
    Ok(words)
}

/// Adds the words of an option, where it is given.
pub(crate) fn add<'a>(
    words: &mut Vec<&'a str>,
    setting: Setting,
    given: Option<&'a str>,
) -> Result<(), WordsFault>
    ensures { OrNoMemory (λ _. spelled_out words.new.items
        ≡ spelled_out words.old.items ++ option_words setting (text_of given.entry)) result }
{
    if let Some(number) = given {
        words.push(setting.name())?;
        words.push(number)?;
    }
    Ok(())
}

/// What `clap` reads of words that it takes.
pub(crate) fn read<'a>(alloc: Global, words: &'a [&'a str]) -> Result<ArgMatches<'a>, WordsFault>
    requires { takes program (spelled_out words.now) ≡ true }
    ensures { OrNoMemory (λ matches. subcommand_rows_of matches
        ≡ subcommand_of program (spelled_out words.entry.now)) result }
{
    Ok(program(alloc)?.try_get_matches_from(words)?)
}

/// The number of an argument of the subcommand that was met.
pub(crate) fn number_of(matches: &ArgMatches<'_>, id: &str) -> Option<u64>
    ensures { (number : ℕ) → HasNumber id.now matches.now number → result ≡ Some number }
{
    let (_, met) = matches.subcommand()?;
    met.get_one::<u64>(id)
}

/// The number of an option of the subcommand that was met.
pub(crate) fn option_of(matches: &ArgMatches<'_>, setting: Setting, id: &str) -> u32
    requires id { id.now ≡ id_of setting }
    requires read { (number : ℕ) × IsReadAs setting matches.now number }
    ensures { (number : ℕ) → IsReadAs setting matches.now number → result ≡ number }
{
    number_of(matches, id).unwrap() as u32
}
