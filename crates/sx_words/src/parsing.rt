//! From words to a command.

ghost use Rattle.std.specs.Prelude.{◌≡◌, ◌∷◌, None, Some, IfOk, IsErrOf, true};
ghost use Rattle.clap.specs.Words.{takes};
ghost use Rattle.sx_words.specs.Numbers.{texts};
ghost use Rattle.sx_words.specs.Commands.{Answers, InRange, command_of, demo_of, filter_of, nothing_more, prove_of};
ghost use Rattle.sx_words.specs.Commands.{replay_of, seal_of};
ghost use Rattle.sx_words.specs.Program.{program};
ghost use Rattle.sx_words.specs.Reading.{HasWorkersAlone, IsGiven, IsNumber, OrNoMemory, begun, demo_from, number_of};
ghost use Rattle.sx_words.specs.Reading.{prove_from, seal_from, text_of};
ghost use Rattle.sx_words.specs.Settings.{Takes};
ghost use Rattle.sx_words.specs.declared.setting.Setting.TheVariants.{Mu, Rounds, Searches, Shards, Workers};
ghost use Rattle.sx_words.specs.declared.fault.WordsFault.TheVariants as words_fault;

use crate::command::Command;
use crate::fault::WordsFault;
use crate::number::number;
use crate::options::{read_options, word_for};
use crate::reading::{add, begin, number_of, option_of, read};
use crate::setting::Setting;
use std::alloc::Global;

const SEAL: [Setting; 5] = [
    Setting::Workers,
    Setting::Shards,
    Setting::Mu,
    Setting::Rounds,
    Setting::Searches,
];

const REPLAY: [Setting; 1] = [Setting::Workers];

const FILTER: [Setting; 1] = [Setting::Workers];

const DEMO: [Setting; 1] = [Setting::Workers];

// The seal that `clap` reads of the words of these numbers.
fn seal_by<'a>(
    alloc: Global,
    workers: Option<&'a str>,
    shards: Option<&'a str>,
    mu: Option<&'a str>,
    rounds: Option<&'a str>,
    searches: Option<&'a str>,
) -> Result<Command, WordsFault>
    requires workers { IsGiven Workers (text_of workers) }
    requires shards { IsGiven Shards (text_of shards) }
    requires mu { IsGiven Mu (text_of mu) }
    requires rounds { IsGiven Rounds (text_of rounds) }
    requires searches { IsGiven Searches (text_of searches) }
    ensures { Answers (seal_from (text_of workers.entry) (text_of shards.entry) (text_of mu.entry)
        (text_of rounds.entry) (text_of searches.entry)) result }
{
    let mut words = begin(alloc, "seal")?;
    add(&mut words, Setting::Workers, workers)?;
    add(&mut words, Setting::Shards, shards)?;
    add(&mut words, Setting::Mu, mu)?;
    add(&mut words, Setting::Rounds, rounds)?;
    add(&mut words, Setting::Searches, searches)?;
    let matches = read(alloc, &words)?;
    Ok(Command::Seal {
        workers: option_of(&matches, Setting::Workers, "workers"),
        shards: option_of(&matches, Setting::Shards, "shards"),
        mu: option_of(&matches, Setting::Mu, "mu") as u8,
        rounds: option_of(&matches, Setting::Rounds, "rounds"),
        searches: option_of(&matches, Setting::Searches, "searches"),
    })
}

fn seal(alloc: Global, words: &[String]) -> Result<Command, WordsFault>
    ensures { Answers (seal_of (texts words.now)) result }
{
    let given = read_options(alloc, &SEAL, words)?;
    let workers = word_for(&given, Setting::Workers).ok_or(WordsFault::Usage)?;
    let shards = word_for(&given, Setting::Shards).ok_or(WordsFault::Usage)?;
    let mu = word_for(&given, Setting::Mu).ok_or(WordsFault::Usage)?;
    let rounds = word_for(&given, Setting::Rounds).ok_or(WordsFault::Usage)?;
    let searches = word_for(&given, Setting::Searches).ok_or(WordsFault::Usage)?;
    seal_by(alloc, workers, shards, mu, rounds, searches)
}

// The number of workers that `clap` reads for the command of this name.
fn workers_by<'a>(
    alloc: Global,
    name: &'static str,
    workers: Option<&'a str>,
) -> Result<u32, WordsFault>
    requires name { HasWorkersAlone name.now }
    requires workers { IsGiven Workers (text_of workers) }
    ensures { OrNoMemory (λ number. (number_of Workers (text_of workers.entry) ≡ Some number)
        × Takes Workers number) result }
{
    let mut words = begin(alloc, name)?;
    add(&mut words, Setting::Workers, workers)?;
    let matches = read(alloc, &words)?;
    Ok(option_of(&matches, Setting::Workers, "workers"))
}

fn replay(alloc: Global, words: &[String]) -> Result<Command, WordsFault>
    ensures { Answers (replay_of (texts words.now)) result }
{
    let given = read_options(alloc, &REPLAY, words)?;
    let workers = word_for(&given, Setting::Workers).ok_or(WordsFault::Usage)?;
    let workers = workers_by(alloc, "replay", workers)?;
    Ok(Command::Replay { workers })
}

fn filter(alloc: Global, words: &[String]) -> Result<Command, WordsFault>
    ensures { Answers (filter_of (texts words.now)) result }
{
    let given = read_options(alloc, &FILTER, words)?;
    let workers = word_for(&given, Setting::Workers).ok_or(WordsFault::Usage)?;
    let workers = workers_by(alloc, "filter", workers)?;
    Ok(Command::Filter { workers })
}

// The proof that `clap` reads.
fn prove_by<'a>(alloc: Global, id: &'a str) -> Result<Command, WordsFault>
    requires { IsNumber id.now }
    ensures { Answers (prove_from id.entry.now) result }
{
    let mut words = begin(alloc, "prove")?;
    words.push(id)?;
    let matches = read(alloc, &words)?;
    Ok(Command::Prove {
        id: number_of(&matches, "id").unwrap(),
    })
}

fn prove(alloc: Global, words: &[String]) -> Result<Command, WordsFault>
    ensures { Answers (prove_of (texts words.now)) result }
{
    let (word, more) = words.split_first().ok_or(WordsFault::Usage)?;
    number(word.as_str(), 0, u64::MAX).ok_or(WordsFault::Usage)?;
    if more.is_empty() {
        prove_by(alloc, word.as_str())
    } else {
        Err(WordsFault::Usage)
    }
}

// The demonstration that `clap` reads.
fn demo_by<'a>(
    alloc: Global,
    number: &'a str,
    workers: Option<&'a str>,
) -> Result<Command, WordsFault>
    requires number { IsNumber number.now }
    requires workers { IsGiven Workers (text_of workers) }
    ensures { Answers (demo_from number.entry.now (text_of workers.entry)) result }
{
    let mut words = begin(alloc, "demo")?;
    words.push(number)?;
    add(&mut words, Setting::Workers, workers)?;
    let matches = read(alloc, &words)?;
    Ok(Command::Demo {
        number: number_of(&matches, "number").unwrap(),
        workers: option_of(&matches, Setting::Workers, "workers"),
    })
}

fn demo(alloc: Global, words: &[String]) -> Result<Command, WordsFault>
    ensures { Answers (demo_of (texts words.now)) result }
{
    let (word, options) = words.split_first().ok_or(WordsFault::Usage)?;
    number(word.as_str(), 0, u64::MAX).ok_or(WordsFault::Usage)?;
    let given = read_options(alloc, &DEMO, options)?;
    let workers = word_for(&given, Setting::Workers).ok_or(WordsFault::Usage)?;
    demo_by(alloc, word.as_str(), workers)
}

// A command that takes no options.
fn alone(
    alloc: Global,
    name: &'static str,
    command: Command,
    words: &[String],
) -> Result<Command, WordsFault>
    requires range { InRange command }
    requires taken { takes program (begun name.now) ≡ true }
    ensures { Answers (nothing_more command (texts words.now)) result }
{
    if words.is_empty() {
        read(alloc, &begin(alloc, name)?)?;
        Ok(command)
    } else {
        Err(WordsFault::Usage)
    }
}

// The command of this name that the words after it ask for.
fn command(alloc: Global, name: &str, words: &[String]) -> Result<Command, WordsFault>
    ensures { Answers (command_of (name.now ∷ texts words.now)) result }
{
    match name {
        "seal" => seal(alloc, words),
        "replay" => replay(alloc, words),
        "check" => alone(alloc, "check", Command::Check, words),
        "show" => alone(alloc, "show", Command::Show, words),
        "interleave" => alone(alloc, "interleave", Command::Interleave, words),
        "migrate" => alone(alloc, "migrate", Command::Migrate, words),
        "filter" => filter(alloc, words),
        "prove" => prove(alloc, words),
        "verify" => alone(alloc, "verify", Command::Verify, words),
        "follow" => alone(alloc, "follow", Command::Follow, words),
        "demo" => demo(alloc, words),
        _ => Err(WordsFault::Usage),
    }
}

/// The command that the words spell, without the program's own name. `Usage` comes exactly where
/// they spell none. It takes one pass over the words, and memory for the options that are given.
pub fn parse(alloc: Global, words: &[String]) -> Result<Command, WordsFault>
    ensures ok { IfOk result (λ command. command_of (texts words.now) ≡ Some command) }
    ensures range { IfOk result InRange }
    ensures usage { IsErrOf result words_fault.Usage → command_of (texts words.now) ≡ None }
{
    match words {
        [] => Err(WordsFault::Usage),
        [name, rest @ ..] => command(alloc, name.as_str(), rest),
    }
}
